//! The words that a script spells and a session prints.
ghost use Rattle.std.specs.Prelude.{◌≡◌, ◌<◌};
ghost use Rattle.std.specs.Char.{digit_char};
ghost use Rattle.debug_model.specs.Spelling.{spelled_path, spelled_switch, spelled_watch_kind};

use crate::command::{Path, WatchKind};

/// The word of a path: `progbuf` or `bus`.
pub fn path_word(path: Path) -> &'static [u8]
    ensures { result.now ≡ spelled_path path }
{
    match path {
        Path::Progbuf => b"progbuf",
        Path::Bus => b"bus",
    }
}

/// The word of what a watchpoint stops at: `load`, `store` or `access`.
pub fn watch_word(kind: WatchKind) -> &'static [u8]
    ensures { result.now ≡ spelled_watch_kind kind }
{
    match kind {
        WatchKind::Load => b"load",
        WatchKind::Store => b"store",
        WatchKind::Access => b"access",
    }
}

/// The word of a switch: `on` or `off`.
pub fn switch_word(is_on: bool) -> &'static [u8]
    ensures { result.now ≡ spelled_switch is_on }
{
    if is_on { b"on" } else { b"off" }
}

/// One hexadecimal digit, in lower case, of a value below 16.
pub fn hex_digit(value: u8) -> u8
    requires { value < 16 }
    ensures { result ≡ digit_char value }
{
    if value < 10 {
        b'0' + value
    } else {
        b'a' + (value - 10)
    }
}
