//! The options of an output's queue, and of its recovery.

ghost use Rattle.std.specs.Prelude.{◌≡◌, ◌≤◌, IfOk};
ghost use Rattle.std.specs.Str.{bytes_eq};
ghost use Rattle.options.specs.Read.{Gives, or_bad};
ghost use Rattle.options.specs.Number.{number};
ghost use Rattle.options.specs.Keyword.{flag};
ghost use Rattle.options.specs.Fifo.{name_of, key_named, is_set, with_value, with_named, no_fifo, options_of};

use crate::fault::{ReadError, WordKind};
use crate::key::Row;
use crate::keyword::flag_of;
use crate::number::number_in;
use fifo_core::FifoOptions;

/// An option of `fifo_options`.
#[derive(Clone, Copy, Debug, PartialEq, Eq)]
pub enum FifoKey {
    QueueSize,
    QueueBytes,
    DropOnOverflow,
    AttemptRecovery,
    MaxRecoveryAttempts,
    RecoveryWaitTime,
    RestartWithKeyframe,
}

/// What `fifo_options` has set so far: one place for each option.
#[derive(Clone, Copy, Debug)]
pub struct FifoDraft {
    pub queue_size: Option<u32>,
    pub queue_bytes: Option<u64>,
    pub dropping: Option<bool>,
    pub attempt_recovery: Option<bool>,
    pub max_attempts: Option<u32>,
    pub wait_ms: Option<u64>,
    pub restart: Option<bool>,
}

impl FifoKey {
    /// The options, in the order in which the help shows them.
    pub const ALL: [FifoKey; 7] = [
        FifoKey::QueueSize,
        FifoKey::QueueBytes,
        FifoKey::DropOnOverflow,
        FifoKey::AttemptRecovery,
        FifoKey::MaxRecoveryAttempts,
        FifoKey::RecoveryWaitTime,
        FifoKey::RestartWithKeyframe,
    ];

    /// The option's line in the table.
    pub fn row(self) -> Row
        ensures { result.name.now ≡ name_of self }
    {
        match self {
            FifoKey::QueueSize => Row {
                name: "queue_size",
                values: "packets, 1 to 256",
                default: "60",
            },
            FifoKey::QueueBytes => Row {
                name: "queue_bytes",
                values: "bytes, 0 to 1099511627776; 0 is no bound",
                default: "0",
            },
            FifoKey::DropOnOverflow => Row {
                name: "drop_pkts_on_overflow",
                values: "0, 1, false, true",
                default: "0",
            },
            FifoKey::AttemptRecovery => Row {
                name: "attempt_recovery",
                values: "0, 1, false, true",
                default: "0",
            },
            FifoKey::MaxRecoveryAttempts => Row {
                name: "max_recovery_attempts",
                values: "0 to 4294967295; 0 is no limit",
                default: "0",
            },
            FifoKey::RecoveryWaitTime => Row {
                name: "recovery_wait_time",
                values: "ms of stream time, 0 to 1000000000",
                default: "0",
            },
            FifoKey::RestartWithKeyframe => Row {
                name: "restart_with_keyframe",
                values: "0, 1, false, true",
                default: "0",
            },
        }
    }
}

fn is_named(text: &str, key: FifoKey) -> bool
    ensures { result ≡ bytes_eq text.now (name_of key) }
{
    text == key.row().name
}

/// The option of that name.
#[tactic(auto, unfolding(crate::specs::Fifo::key_named))]
pub fn fifo_key_of(text: &str) -> Option<FifoKey>
    ensures { result ≡ key_named text.now }
{
    FifoKey::ALL
        .iter()
        .copied()
        .find(|key| is_named(text, *key))
}

fn flag(text: &str) -> Result<bool, ReadError>
    ensures { Gives (λ v. v) result (or_bad (flag text.now)) }
{
    match flag_of(text) {
        Some(flag) => Ok(flag),
        None => Err(ReadError::Fault(WordKind::BadValue)),
    }
}

fn number(text: &str, least: u64, most: u64) -> Result<u64, ReadError>
    ensures value { Gives (λ v. v) result (or_bad (number least most text.now)) }
    ensures bound { IfOk result (λ v. v ≤ most) }
{
    match number_in(text, least, most) {
        Some(number) => Ok(number),
        None => Err(ReadError::Fault(WordKind::BadValue)),
    }
}

impl FifoDraft {
    /// Nothing is set.
    pub fn new() -> FifoDraft
        ensures { result ≡ no_fifo }
    {
        FifoDraft {
            queue_size: None,
            queue_bytes: None,
            dropping: None,
            attempt_recovery: None,
            max_attempts: None,
            wait_ms: None,
            restart: None,
        }
    }

    fn has(&self, key: FifoKey) -> bool
        ensures { result ≡ is_set key self.now }
    {
        match key {
            FifoKey::QueueSize => self.queue_size.is_some(),
            FifoKey::QueueBytes => self.queue_bytes.is_some(),
            FifoKey::DropOnOverflow => self.dropping.is_some(),
            FifoKey::AttemptRecovery => self.attempt_recovery.is_some(),
            FifoKey::MaxRecoveryAttempts => self.max_attempts.is_some(),
            FifoKey::RecoveryWaitTime => self.wait_ms.is_some(),
            FifoKey::RestartWithKeyframe => self.restart.is_some(),
        }
    }

    fn set(self, key: FifoKey, value: &str) -> Result<FifoDraft, ReadError>
        ensures { Gives (λ d. d) result (with_value key value.now self) }
    {
        let mut draft = self;
        match key {
            FifoKey::QueueSize => draft.queue_size = Some(number(value, 1, 256)? as u32),
            FifoKey::QueueBytes => draft.queue_bytes = Some(number(value, 0, 1 << 40)?),
            FifoKey::DropOnOverflow => draft.dropping = Some(flag(value)?),
            FifoKey::AttemptRecovery => draft.attempt_recovery = Some(flag(value)?),
            FifoKey::MaxRecoveryAttempts => {
                draft.max_attempts = Some(number(value, 0, 0xFFFF_FFFF)? as u32);
            }
            FifoKey::RecoveryWaitTime => draft.wait_ms = Some(number(value, 0, 1_000_000_000)?),
            FifoKey::RestartWithKeyframe => draft.restart = Some(flag(value)?),
        }
        Ok(draft)
    }

    /// Judges the key, and then the value.
    #[tactic(auto, unfolding(crate::specs::Fifo::with_named))]
    pub fn set_named(self, key: &str, value: &str) -> Result<FifoDraft, ReadError>
        ensures { Gives (λ d. d) result (with_named key.now value.now self) }
    {
        let Some(key) = fifo_key_of(key) else {
            return Err(ReadError::Fault(WordKind::UnknownOption));
        };
        if self.has(key) {
            return Err(ReadError::Fault(WordKind::BadValue));
        }
        self.set(key, value)
    }

    /// The options, with their defaults where they aren't set.
    pub fn finish(self, use_fifo: bool) -> FifoOptions
        ensures { result ≡ options_of use_fifo self }
    {
        FifoOptions {
            use_fifo,
            queue_size: self.queue_size.unwrap_or(60),
            queue_bytes: self.queue_bytes.unwrap_or(0),
            dropping: self.dropping.unwrap_or(false),
            attempt_recovery: self.attempt_recovery.unwrap_or(false),
            max_attempts: self.max_attempts.unwrap_or(0),
            wait_ms: self.wait_ms.unwrap_or(0),
            restart: self.restart.unwrap_or(false),
        }
    }
}
