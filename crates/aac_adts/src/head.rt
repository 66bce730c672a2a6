// The head of a frame.
ghost use Rattle.std.specs.Prelude.{◌≡◌, ◌≤◌, []};
ghost use Rattle.rmx_media.specs.Bits.{packed, bytes_of};
ghost use Rattle.rmx_media.specs.Adts.{adts_head as head_of, head_fields};

use rmx_media::AacConfig;

/// The head of an ADTS frame (ISO/IEC 14496-3, 1.A.2.2) round `len` bytes of data: no checksum, one block.
#[tactic(auto, unfolding(rmx_media::specs::Adts::adts_head))]
pub fn adts_head(cfg: &AacConfig, len: u32) -> [u8; 7]
    requires { len ≤ 8184 }
    ensures { result ≡ head_of cfg.now len }
{
    seven_bytes(head_number(cfg.object_type, cfg.index, cfg.channels, len))
}

// The head as one number of 56 bits.
fn head_number(object_type: u8, index: u8, channels: u8, len: u32) -> u64
    requires { len ≤ 8184 }
    ensures { result ≡ packed (head_fields record { raw = []; object_type = object_type; index = index; channels = channels } len) }
{
    let profile = object_type.saturating_sub(1);
    let front = 0xFFF1 * 4 + profile as u64;
    let middle = (front * 16 + index as u64) * 16 + channels as u64;
    let back = middle * 16 * 8192 + (len + 7) as u64;
    (back * 2048 + 2047) * 4
}

// Seven bytes of a number.
fn seven_bytes(n: u64) -> [u8; 7]
    ensures { result ≡ bytes_of 7 n }
{
    [
        (n / 0x1_0000_0000_0000 % 256) as u8,
        (n / 0x100_0000_0000 % 256) as u8,
        (n / 0x1_0000_0000 % 256) as u8,
        (n / 0x100_0000 % 256) as u8,
        (n / 0x1_0000 % 256) as u8,
        (n / 0x100 % 256) as u8,
        (n % 256) as u8,
    ]
}
