ghost use Rattle.std.specs.Prelude.{◌≤◌, length};

use std::alloc::Global;
use std::test::Fail;
use xc_data::{Boxed, Chunk, Ident, Items, Name, NoMemory};

fn are_names(texts: &[&[u8]]) -> bool {
    texts.iter().all(|text| Name::new(text).is_some())
}

fn is_any_name(texts: &[&[u8]]) -> bool {
    texts.iter().any(|text| Name::new(text).is_some())
}

fn are_identifiers(texts: &[&[u8]]) -> bool {
    texts.iter().all(|text| Ident::new(text).is_some())
}

fn is_any_identifier(texts: &[&[u8]]) -> bool {
    texts.iter().any(|text| Ident::new(text).is_some())
}

#[test]
fn names_at_their_limits(rt: HostRuntime) {
    assert!(rt; are_names(&[b"a", b"log.txt_1-B", b"..a", &[b'n'; 64]]));
    assert!(rt; !is_any_name(&[b"", b"...", b"a/b", b"a b", &[b'n'; 65]]));
}

#[test]
fn identifiers_at_their_limits(rt: HostRuntime) {
    assert!(rt; are_identifiers(&[b"x", b"x_1", &[b'i'; 32]]));
    assert!(rt; !is_any_identifier(&[b"", b"1x", b"_x", b"Main", &[b'i'; 33]]));
}

fn is_shared(whole: &Chunk) -> Result<bool, NoMemory> {
    Ok(whole.share()? == *whole)
}

fn is_cut(alloc: Global, whole: &Chunk) -> Result<bool, NoMemory>
    requires { 3 ≤ length whole.now }
{
    Ok(whole.part(alloc, 1, 3)?.as_slice() == b"el".as_slice())
}

#[test]
fn bytes_are_shared_and_cut(rt: HostRuntime) -> Result<(), Fail> {
    let whole = Chunk::new(rt.alloc(), b"hello")?;
    assert!(rt; is_shared(&whole)? && is_cut(rt.alloc(), &whole)?);
    Ok(())
}

fn are_taken_over(bytes: Vec<u8>) -> Result<bool, NoMemory> {
    Ok(Chunk::from_vec(bytes)?.as_slice() == b"hi".as_slice())
}

#[test]
fn bytes_are_taken_over(rt: HostRuntime) -> Result<(), Fail> {
    assert!(rt; are_taken_over(b"hi".to_vec(rt.alloc())?)?);
    Ok(())
}

fn sevens(alloc: Global) -> Result<Items<u64>, NoMemory> {
    let mut list = Items::new(alloc);
    list.push(7)?;
    Ok(list)
}

#[test]
fn items_are_pushed_and_cloned(rt: HostRuntime) -> Result<(), Fail> {
    let list = sevens(rt.alloc())?;
    assert!(rt; list.clone()?.get(0) == Some(&7));
    Ok(())
}

fn is_copied(alloc: Global, boxed: &Boxed<u64>) -> Result<bool, NoMemory> {
    Ok(*boxed.copied(alloc)?.value() == 7)
}

#[test]
fn values_are_boxed(rt: HostRuntime) -> Result<(), Fail> {
    let boxed = Boxed::new(rt.alloc(), 7)?;
    assert!(rt; is_copied(rt.alloc(), &boxed)?);
    Ok(())
}
