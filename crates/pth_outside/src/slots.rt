// The files of `MemFiles`: slots that are never taken away, of which the first with a name counts.
ghost use Rattle.std.specs.Prelude.{◌≡◌, ◌≢◌, ℕ, List, ◌+◌, ◌-◌, ◌<◌, ◌≤◌, min, length, take, OnOk, OnErr, IfOk, IfSome, IfNone, Some, None, IsSome, vec_len, option_map, option_copied, if◌then◌else◌};
ghost use Rattle.std.specs.FinMap as map;
ghost use Rattle.pth_outside.specs.Files.{IsRead, put_at, created, appended, published, removed};
ghost use Rattle.pth_outside.specs.Slots.{IsSlotOf, HasNoSlot, files_of, marks_of};

use std::alloc::{AllocError, Global};

#[derive(Drop)]
pub(crate) struct Slot {
    pub(crate) name: String,
    pub(crate) bytes: Option<Vec<u8>>,
    pub(crate) created: bool,
}

// The place of the first slot with the name.
pub(crate) fn find(slots: &[Slot], name: &str) -> Option<usize>
    ensures found { IfSome result (λ i. IsSlotOf slots.now name.now i) }
    ensures within { IfSome result (λ i. i < length slots.now) }
    ensures none { IfNone result (HasNoSlot slots.now name.now) }
{
    for (i, slot) in slots.iter().enumerate() {
        if slot.name.as_str() == name {
            return Some(i);
        }
    }
    None
}

// The place of the first slot with the name, which is made if there is none.
pub(crate) fn slot_of(alloc: Global, slots: &mut Vec<Slot>, name: &str) -> Result<usize, AllocError>
    ensures found { IfOk result (λ i. IsSlotOf slots.new.items name.now i) }
    ensures within { IfOk result (λ i. i < vec_len slots.new) }
    ensures files { files_of slots.new.items ≡ files_of slots.old.items }
    ensures created { marks_of slots.new.items ≡ marks_of slots.old.items }
{
    if let Some(i) = find(slots, name) {
        return Ok(i);
    }
    let place = slots.len();
    slots.push(Slot {
        name: String::from_str(alloc, name)?,
        bytes: None,
        created: false,
    })?;
    Ok(place)
}

// The bytes of a file, if it is there.
pub(crate) fn bytes_at<'a>(slots: &'a [Slot], name: &str) -> Option<&'a [u8]>
    ensures { option_copied result ≡ map.get (files_of slots.now) name.now }
{
    match find(slots, name) {
        Some(place) => slots[place].bytes.as_deref(),
        None => None,
    }
}

// Whether the name is marked as created.
pub(crate) fn is_marked(slots: &[Slot], name: &str) -> bool
    ensures { result ≡ map.contains_key (marks_of slots.now) name.now }
{
    match find(slots, name) {
        Some(place) => slots[place].created,
        None => false,
    }
}

// Puts a file there, with these bytes.
pub(crate) fn put_bytes(
    alloc: Global,
    slots: &mut Vec<Slot>,
    name: &str,
    bytes: Vec<u8>,
) -> Result<(), AllocError>
    ensures ok { OnOk result
        (files_of slots.new.items ≡
        put_at (files_of slots.old.items) name.now (Some bytes.items)) }
    ensures err { OnErr result (files_of slots.new.items ≡ files_of slots.old.items) }
    ensures marks { marks_of slots.new.items ≡ marks_of slots.old.items }
{
    let place = slot_of(alloc, slots, name)?;
    let slot = &mut slots[place];
    slot.bytes = Some(bytes);
    Ok(())
}

// Puts an empty file there, and marks it as created.
pub(crate) fn make_empty(alloc: Global, slots: &mut Vec<Slot>, name: &str) -> Result<(), AllocError>
    ensures ok { OnOk result
        (files_of slots.new.items ≡ created name.now (files_of slots.old.items)) }
    ensures marked { OnOk result
        (marks_of slots.new.items ≡ put_at (marks_of slots.old.items) name.now (Some tt)) }
    ensures err { OnErr result (files_of slots.new.items ≡ files_of slots.old.items) }
    ensures marks { OnErr result (marks_of slots.new.items ≡ marks_of slots.old.items) }
{
    let place = slot_of(alloc, slots, name)?;
    let slot = &mut slots[place];
    slot.bytes = Some(Vec::new(alloc));
    slot.created = true;
    Ok(())
}

// Puts a piece at the end of a file, and tells whether the file is there.
pub(crate) fn extend(slots: &mut [Slot], name: &str, piece: &[u8]) -> Result<bool, AllocError>
    ensures there { IfOk result (λ there.
        there ≡ map.contains_key (files_of slots.old) name.now) }
    ensures ok { OnOk result
        (files_of slots.new ≡ appended name.now piece.now (files_of slots.old)) }
    ensures err { OnErr result (files_of slots.new ≡ files_of slots.old) }
    ensures marks { marks_of slots.new ≡ marks_of slots.old }
{
    let Some(place) = find(slots, name) else {
        return Ok(false);
    };
    let slot = &mut slots[place];
    match &mut slot.bytes {
        Some(bytes) => {
            bytes.extend_from_slice(piece)?;
            Ok(true)
        }
        None => Ok(false),
    }
}

// Takes a file away, and gives its bytes, if it is there.
pub(crate) fn take_bytes(slots: &mut [Slot], name: &str) -> Option<Vec<u8>>
    ensures bytes { option_map (λ v. v.items) result ≡ map.get (files_of slots.old) name.now }
    ensures files { files_of slots.new ≡ removed name.now (files_of slots.old) }
    ensures none { IfNone result (files_of slots.new ≡ files_of slots.old) }
    ensures marks { marks_of slots.new ≡ marks_of slots.old }
    ensures places { (other : List ℕ) (i : ℕ) →
        IsSlotOf slots.old other i → IsSlotOf slots.new other i }
{
    match find(slots, name) {
        Some(place) => {
            let slot = &mut slots[place];
            slot.bytes.take()
        }
        None => None,
    }
}

// Gives a file another name, and tells whether the file is there.
pub(crate) fn rename(
    alloc: Global,
    slots: &mut Vec<Slot>,
    from: &str,
    to: &str,
) -> Result<bool, AllocError>
    requires { from.now ≢ to.now }
    ensures there { IfOk result (λ there.
        there ≡ map.contains_key (files_of slots.old.items) from.now) }
    ensures ok { IfOk result (λ there.
        let before = files_of slots.old.items in
        files_of slots.new.items ≡ (if there then published from.now to.now before else before)) }
    ensures err { OnErr result (files_of slots.new.items ≡ files_of slots.old.items) }
    ensures marks { marks_of slots.new.items ≡ marks_of slots.old.items }
{
    let place = slot_of(alloc, slots, to)?;
    match take_bytes(slots, from) {
        Some(bytes) => {
            let slot = &mut slots[place];
            slot.bytes = Some(bytes);
            Ok(true)
        }
        None => Ok(false),
    }
}

// Copies from a place on, at most `most` bytes, and gives their count.
pub(crate) fn copy_from(bytes: &[u8], at: u64, most: usize, into: &mut [u8]) -> usize
    requires { 0 < most }
    ensures read { IsRead bytes.now at into.old into.new result }
    ensures count { result ≡ min most (min (length into.old) (length bytes.now - at)) }
{
    let start = bytes.len().min(at as usize);
    let rest = &bytes[start..];
    let count = most.min(into.len()).min(rest.len());
    into[..count].copy_from_slice(&rest[..count]);
    count
}
