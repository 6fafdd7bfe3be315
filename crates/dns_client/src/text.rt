//! Names as people write them: labels with dots between them (RFC 1035 2.3.1).
ghost use Rattle.std.specs.Prelude.{◌≡◌, ◌+◌, ◌++◌, ◌∷◌, ◌&&◌, IfSome, length, nat_le, true};
ghost use Rattle.std.specs.Option.{option_map};
ghost use Rattle.std.specs.List.{position};
ghost use Rattle.dns_client.specs.Message.{is_whole_name};
ghost use Rattle.dns_client.specs.Details.Text as spec;

use crate::name::MAX_NAME_LEN;
use arrayvec::ArrayVec;

/// The most octets of a label (RFC 1035 2.3.4).
const MAX_LABEL_LEN: usize = 63;

/// A name by its labels, a length before each and 0 at the end.
pub type Name = ArrayVec<u8, MAX_NAME_LEN>;

/// The name that a text is, by its labels. A dot at the text's end is left out. `None` exactly if a label between dots is empty
/// or longer than 63 octets, or the name would be longer than 255, with the lengths of its labels and its end.
pub fn name_of(text: &[u8]) -> Option<Name>
    ensures { option_map (λ name. name.items) result ≡ spec.name_in text.now }
{
    let mut name: Name = ArrayVec::new();
    let mut rest = without_dot(text);
    while let Some(len) = dot_in(rest) {
        if !push_label(&mut name, &rest[..len]) {
            return None;
        }
        rest = &rest[len + 1..];
    }
    if !push_label(&mut name, rest) {
        return None;
    }
    if name.try_push(0).is_err() {
        return None;
    }
    Some(name)
}

/// A text without the dot at its end, if it has one.
fn without_dot(text: &[u8]) -> &[u8]
    ensures { result.now ≡ spec.without_dot text.now }
{
    if !text.is_empty() && text[text.len() - 1] == 46 {
        &text[..text.len() - 1]
    } else {
        text
    }
}

/// Where the first dot of a text is, if it has one.
fn dot_in(text: &[u8]) -> Option<usize>
    ensures { result ≡ position spec.is_dot text.now }
{
    text.iter().position(|octet| *octet == 46)
}

/// Appends a label with its length. `false` exactly if it is empty, longer than 63 octets, or longer than the name has room for.
fn push_label(name: &mut Name, label: &[u8]) -> bool
    ensures fits { result ≡ (spec.is_label label.now && nat_le (length name.old.items + 1 + length label.now) 255) }
    ensures name { result ≡ true → name.new.items ≡ name.old.items ++ length label.now ∷ label.now }
{
    let len = label.len();
    if len == 0 || len > MAX_LABEL_LEN || name.remaining_capacity() < len + 1 {
        return false;
    }
    name.push(len as u8);
    let _ = name.try_extend_from_slice(label);
    true
}

/// A name that comes of a text is whole, and read as the labels of that text.
pub fn text_read_again()
    ensures { spec.TextReadAgain }
{}
