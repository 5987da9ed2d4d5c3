// The names of marks.
ghost use Rattle.std.specs.Prelude.{◌≡◌, ◌≤◌, ◌++◌, length, drop, bytes_eq};
ghost use Rattle.dir_rules.specs.Marks.{digits, mark, is_started_mark, is_status_file, is_below_status, is_later_mark};

use crate::path::has_slash;

// The last digits of a number, as many as there is room for.
fn write_digits(room: &mut [u8], number: u128)
    ensures { room.new ≡ digits (length room.old) number }
{
    let mut rest = number;
    let mut place = room.len();
    'places: while place > 0 {
        place -= 1;
        room[place] = b'0' + (rest % 10) as u8;
        rest /= 10;
    }
}

// Whether the bytes are a text and then others.
fn is_joined(bytes: &[u8], text: &[u8], rest: &[u8]) -> bool
    ensures { result ≡ bytes_eq bytes.now (text.now ++ rest.now) }
{
    match bytes.strip_prefix(text) {
        Some(behind) => behind == rest,
        None => false,
    }
}

/// Whether a path is the mark of this moment.
pub fn is_mark(text: &[u8], moment: u128, path: &[u8]) -> bool
    ensures { result ≡ bytes_eq path.now (mark text.now moment) }
{
    let mut room = [0; 20];
    write_digits(&mut room, moment);
    is_joined(path, text, &room)
}

/// Whether it is the mark of an app: it stands in the folder itself, and a name follows.
pub fn is_started_mark(path: &[u8]) -> bool
    ensures { result ≡ is_started_mark path.now }
{
    path.starts_with(b"started-") && path.len() > 8 && !has_slash(path)
}

fn rest_from(path: &[u8], n: usize) -> &[u8]
    requires { n ≤ length path.now }
    ensures { result.now ≡ drop n path.now }
{
    &path[n..]
}

/// Whether it is the file of an app in the directory for statuses.
pub fn is_status_file(path: &[u8]) -> bool
    ensures { result ≡ is_status_file path.now }
{
    if !is_below_status(path) {
        return false;
    }
    if path.len() <= 25 {
        return false;
    }
    !has_slash(rest_from(path, 25))
}

/// Whether it stands below the directory for statuses, at any depth.
pub fn is_below_status(path: &[u8]) -> bool
    ensures { result ≡ is_below_status path.now }
{
    path.starts_with(b"stage1/rootfs/rkt/status/")
}

/// Whether it is a mark that no maker makes.
pub fn is_later_mark(path: &[u8]) -> bool
    ensures { result ≡ is_later_mark path.now }
{
    if has_slash(path) {
        return false;
    }
    path.starts_with(b"started-") || path.starts_with(b"marked-")
}
