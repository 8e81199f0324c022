ghost use Rattle.std.specs.Prelude.{◌≡◌, ◌≤◌, ◌<◌, ◌++◌, length, IfSome, IfNone, IfOk, OnOk};
ghost use Rattle.std.specs.Fmt.{decimal};
ghost use Rattle.xc_script.specs.Values.{item_value, joined_data};

use crate::terms::{bytes_in, chunk_in, value_of};
use crate::value::Variables;
use std::alloc::Global;
use xc_data::{Chunk, MOST_CALL_BYTES, NoMemory};
use xc_text::{Data, Item, NameIndex};

// How many decimal digits a number has.
#[tactic(auto, using(crate::proofs::Digits::digit_count, crate::proofs::Digits::digits_count))]
fn digits(n: u64) -> usize
    ensures { result ≡ length (decimal n) }
{
    match n.checked_ilog10() {
        Some(tens) => tens as usize + 1,
        None => 1,
    }
}

fn item_len(variables: &Variables, item: &Item<NameIndex>) -> usize
    ensures { result ≡ length (item_value variables.now item.now) }
{
    match item {
        Item::Literal(bytes) => bytes.len(),
        Item::Bytes(at) => bytes_in(variables, *at).len(),
        Item::Digits(term) => digits(value_of(variables, *term)),
    }
}

/// The length of data of no more than 1,024 bytes.
pub fn data_len(variables: &Variables, items: &Data<NameIndex>) -> Option<usize>
    ensures some { IfSome result (λ len. (len ≡ length (joined_data variables.now items.now)) × (len ≤ 1024)) }
    ensures none { IfNone result (1024 < length (joined_data variables.now items.now)) }
{
    let mut len = 0;
    for item in items.as_slice() {
        let more = item_len(variables, item);
        if more > MOST_CALL_BYTES as usize - len {
            return None;
        }
        len += more;
    }
    Some(len)
}

fn push_digits(alloc: Global, bytes: &mut Vec<u8>, n: u64) -> Result<(), NoMemory>
    ensures { OnOk result (bytes.new.items ≡ bytes.old.items ++ decimal n) }
{
    let digits = n.to_string(alloc)?;
    bytes.extend_from_slice(digits.as_bytes())?;
    Ok(())
}

fn push_item(
    alloc: Global,
    variables: &Variables,
    bytes: &mut Vec<u8>,
    item: &Item<NameIndex>,
) -> Result<(), NoMemory>
    ensures { OnOk result (bytes.new.items ≡ bytes.old.items ++ item_value variables.now item.now) }
{
    match item {
        Item::Literal(literal) => Ok(bytes.extend_from_slice(literal.as_slice())?),
        Item::Bytes(at) => Ok(bytes.extend_from_slice(bytes_in(variables, *at))?),
        Item::Digits(term) => push_digits(alloc, bytes, value_of(variables, *term)),
    }
}

// The bytes of a single literal, or of a single variable that has bytes.
fn shared_in<'a>(variables: &'a Variables, items: &'a Data<NameIndex>) -> Option<&'a Chunk>
    ensures { IfSome result (λ bytes. bytes.now ≡ joined_data variables.now items.now) }
{
    match items.as_slice() {
        [Item::Literal(literal)] => Some(literal),
        [Item::Bytes(at)] => chunk_in(variables, *at),
        [] | [Item::Digits(_)] | [_, _, ..] => None,
    }
}

/// The items joined. What is a single item is shared, and not copied.
pub fn data_in(
    alloc: Global,
    variables: &Variables,
    items: &Data<NameIndex>,
) -> Result<Chunk, NoMemory>
    ensures { IfOk result (λ bytes. bytes ≡ joined_data variables.now items.now) }
{
    if let Some(bytes) = shared_in(variables, items) {
        return bytes.share();
    }
    let mut bytes = Vec::new(alloc);
    for item in items.as_slice() {
        push_item(alloc, variables, &mut bytes, item)?;
    }
    Chunk::from_vec(bytes)
}
