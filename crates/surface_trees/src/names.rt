// Names as expressions bind and use them.

use grift_base::lists::Name;

/// A name.
#[derive(PartialEq, Eq, Hash)]
pub enum Ident {
    /// A name of the source, by its bytes.
    Source(Name),
    /// A name that no source can write, by its number.
    Fresh(u32),
}

// By hand, so that each place where a name goes is one call.
impl Drop for Ident {
    fn drop(self) {
        match self {
            Ident::Source(name) => drop(name),
            Ident::Fresh(_) => {}
        }
    }
}
