// Bytes that are watched.
ghost use Rattle.std.specs.Prelude.{◌≡◌, not};
ghost use Rattle.hart_memory.specs.Access.{byte_at};
ghost use Rattle.lab_positions.specs.Watching.{is_alike, is_changed, first_changed};

use hart_memory::Banks;

/// So many bytes from an address on, which are watched.
#[derive(Clone, Copy, Debug, Default, PartialEq, Eq, Drop)]
pub struct Watch {
    pub at: u32,
    pub len: u32,
}

// The byte at an address, where there is one.
fn byte_at(banks: &Banks, at: u64) -> Option<u8>
    ensures { result ≡ byte_at banks.now.present at }
{
    if at > 0xFFFF_FFFF {
        return None;
    }
    let at = at as u32;
    if banks.holds(at, 1) {
        Some(banks.byte(at))
    } else {
        None
    }
}

fn is_alike(before: Option<u8>, after: Option<u8>) -> bool
    ensures { result ≡ is_alike before after }
{
    match before {
        Some(old) => match after {
            Some(new) => old == new,
            None => false,
        },
        None => match after {
            Some(_) => false,
            None => true,
        },
    }
}

// Whether the byte at an address is another.
fn is_other_at(before: &Banks, after: &Banks, at: u64) -> bool
    ensures { result ≡ not (is_alike (byte_at before.now.present at) (byte_at after.now.present at)) }
{
    !is_alike(byte_at(before, at), byte_at(after, at))
}

// Whether a byte of the watch is another.
fn is_changed(watch: Watch, before: &Banks, after: &Banks) -> bool
    ensures { result ≡ is_changed before.now.present after.now.present watch }
{
    for k in 0..watch.len {
        if is_other_at(before, after, watch.at as u64 + k as u64) {
            return true;
        }
    }
    false
}

/// The address of the first watch that changed.
pub(crate) fn first_changed(watches: &[Watch], before: &Banks, after: &Banks) -> Option<u32>
    ensures { result ≡ first_changed before.now.present after.now.present watches.now }
{
    for i in 0..watches.len() {
        if is_changed(watches[i], before, after) {
            return Some(watches[i].at);
        }
    }
    None
}
