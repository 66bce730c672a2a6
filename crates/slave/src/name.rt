// The names of an output's sessions.
ghost use Rattle.std.specs.Prelude.{◌≡◌, ◌≤◌, length};
ghost use Rattle.slave.specs.Origin.{session_name as name_of_session};

use arrayvec::ArrayString;
use itoa::Buffer;

/// The name of a session's file: that of the output, and from session 1 on a tilde and the number behind it.
pub fn session_name(name: &str, session: u64) -> ArrayString<256>
    requires { length name.now ≤ 200 }
    ensures { result.bytes ≡ name_of_session name.now session }
{
    let mut whole = ArrayString::new();
    whole.push_str(name);
    if session != 0 {
        let mut digits = Buffer::new();
        whole.push_str("~");
        whole.push_str(digits.format(session));
    }
    whole
}
