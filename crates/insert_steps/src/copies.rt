// Refusals, and names that are copied.

ghost use Rattle.std.specs.Prelude.{◌≡◌, ◌∷◌, Err, IfOk, OnOk};

use grift_base::lists::{Name, OutOfMemory};
use grift_base::places::Pos;
use grift_base::refusals::{FrontFault, Refusal, RefusalKind};
use std::alloc::Global;
use surface_trees::names::Ident;

pub fn refused<T>(kind: RefusalKind, pos: Pos) -> Result<T, FrontFault>
    ensures { result ≡ Err (FrontFault.Refused (record { kind = kind; pos = pos })) }
{
    Err(FrontFault::Refused(Refusal { kind, pos }))
}

/// The same name again.
pub fn copy_of_name(alloc: Global, name: &Ident) -> Result<Ident, OutOfMemory>
    ensures { IfOk result (λ same. same ≡ name.now) }
{
    match name {
        Ident::Source(bytes) => Ok(Ident::Source(Name::from_slice(alloc, bytes.as_slice())?)),
        Ident::Fresh(number) => Ok(Ident::Fresh(*number)),
    }
}

/// Puts an element in front of the others, of which there are few.
pub fn put_first<T: Drop>(items: &mut Vec<T>, item: T) -> Result<(), OutOfMemory>
    ensures { OnOk result (items.new.items ≡ item ∷ items.old.items) }
{
    items.insert(0, item)?;
    Ok(())
}
