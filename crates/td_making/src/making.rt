//! Files in making.
ghost use Rattle.std.specs.Prelude.{◌≡◌, ◌≤◌, ◌+◌, [], map, sum, length, All, IsSome, IfOk, IfSome, OnOk, OnErr, IsErrOf};
ghost use Rattle.std.specs.Option.{option_map};
ghost use Rattle.td_outside.specs.Causes.{Rose, raised};
ghost use Rattle.td_outside.specs.Image.{Along};
ghost use Rattle.td_outside.specs.declared.faults.IoFault.TheVariants as faults;
ghost use Rattle.td_making.specs.Making.{SameHeld, Adds, AddsOne, AddsSome};

use std::alloc::Global;
use td_layer::Seq;
use td_outside::{IoFault, Store};

/// Gives unfinished files up. The faults of their writers become the store's.
pub fn abandon_all<S: Store>(store: &mut S, files: Seq<S::Writer>)
    ensures image { Along SameHeld (S.told store.old) (S.told store.new) }
    ensures count { raised (S.count store.old) (sum (map S.Writer.count files)) ≤ S.count store.new }
{
    let mut files = files;
    while let Some(file) = files.pop() {
        store.abandon(file);
    }
    files.done();
}

// Begins a file, behind those that are begun.
fn add_new<S: Store>(
    alloc: Global,
    store: &mut S,
    files: &mut Seq<S::Writer>,
) -> Result<(), IoFault>
    ensures image { Along SameHeld (S.told store.old) (S.told store.new) }
    ensures count { raised (S.count store.old) 0 ≤ S.count store.new }
    ensures ok { OnOk result (length files.new ≡ length files.old + 1) }
    ensures empty { All (λ w. S.Writer.written w ≡ option_map (λ _. []) (S.told store.old)) files.old
        → OnOk result (All (λ w. S.Writer.written w ≡ option_map (λ _. []) (S.told store.new)) files.new) }
    ensures clean { All (λ w. S.Writer.count w ≡ 0) files.old
        → OnOk result (All (λ w. S.Writer.count w ≡ 0) files.new) }
    ensures kept { OnOk result (S.count store.new ≡ S.count store.old) }
    ensures failed { IsErrOf result faults.Failed → Rose (S.count store.old) (S.count store.new) }
    ensures err { OnErr result (files.new ≡ files.old) }
{
    let file = store.create(alloc)?;
    if let Err((file, _)) = files.push(file) {
        store.abandon(file);
        return Err(IoFault::NoMemory);
    }
    Ok(())
}

/// Begins so many files. Where one can't be begun, the others are given up.
pub fn create_all<S: Store>(
    alloc: Global,
    store: &mut S,
    count: u32,
) -> Result<Seq<S::Writer>, IoFault>
    ensures image { Along SameHeld (S.told store.old) (S.told store.new) }
    ensures number { IfOk result (λ files. length files ≡ count) }
    ensures empty { IfOk result (All (λ w. S.Writer.written w ≡ option_map (λ _. []) (S.told store.new))) }
    ensures clean { IfOk result (All (λ w. S.Writer.count w ≡ 0)) }
    ensures later { raised (S.count store.old) 0 ≤ S.count store.new }
    ensures kept { OnOk result (S.count store.new ≡ S.count store.old) }
    ensures failed { IsErrOf result faults.Failed → Rose (S.count store.old) (S.count store.new) }
{
    let mut files = Seq::new(alloc);
    for _ in 0..count {
        if let Err(fault) = add_new(alloc, store, &mut files) {
            abandon_all(store, files);
            return Err(fault);
        }
    }
    Ok(files)
}

// Finishes a file, and notes its number behind others.
fn finish_one<S: Store>(
    store: &mut S,
    file: S::Writer,
    numbers: &mut Vec<u64>,
) -> Result<(), IoFault>
    requires told { IfSome (S.told store.old) (λ _. IsSome (S.Writer.written file)) }
    ensures ok { OnOk result (AddsOne (S.Writer.written file) numbers.old.items numbers.new.items
        (S.told store.old) (S.told store.new)) }
    ensures some { Along AddsSome (S.told store.old) (S.told store.new) }
    ensures count { raised (S.count store.old) 0 ≤ S.count store.new }
    ensures failed { IsErrOf result faults.Failed → Rose (S.count store.old) (S.count store.new) }
{
    let number = store.finish(file)?;
    if numbers.push(number).is_err() {
        return Err(IoFault::NoMemory);
    }
    Ok(())
}

/// Finishes files, and gives their numbers in their order. Where one fails, the rest are given up.
pub fn finish_all<S: Store>(
    alloc: Global,
    store: &mut S,
    files: Seq<S::Writer>,
) -> Result<Vec<u64>, IoFault>
    requires told { IfSome (S.told store.old) (λ _. All IsSome (map S.Writer.written files)) }
    ensures some { Along AddsSome (S.told store.old) (S.told store.new) }
    ensures number { IfOk result (λ numbers. length numbers.items ≡ length files) }
    ensures ok { IfOk result (λ numbers. Along (Adds numbers.items (map S.Writer.written files))
        (S.told store.old) (S.told store.new)) }
    ensures failed { IsErrOf result faults.Failed → Rose (S.count store.old) (S.count store.new) }
    ensures count { raised (S.count store.old) 0 ≤ S.count store.new }
{
    let mut files = files;
    let mut numbers = match Vec::with_capacity(alloc, files.len()) {
        Ok(numbers) => numbers,
        Err(_) => {
            abandon_all(store, files);
            return Err(IoFault::NoMemory);
        }
    };
    while let Some(file) = files.pop() {
        if let Err(fault) = finish_one(store, file, &mut numbers) {
            abandon_all(store, files);
            return Err(fault);
        }
    }
    files.done();
    numbers.reverse();
    Ok(numbers)
}
