// Times in milliseconds as the format counts them.
ghost use Rattle.std.specs.Prelude.{◌≡◌, ◌<◌, ◌^◌};
ghost use Rattle.ts_mux.specs.Times.{ticks as ticks_of, IsTime};

/// The time in units of 1/90 ms from an offset on, in 33 bits.
#[tactic(auto, unfolding(crate::specs::Times::ticks))]
pub(crate) fn ticks(ms: i64, offset: u32) -> u64
    requires { IsTime ms }
    ensures value { result ≡ ticks_of ms offset }
    ensures below { result < 2 ^ 33 }
{
    (90 * ms + i64::from(offset)).rem_euclid(0x2_0000_0000) as u64
}
