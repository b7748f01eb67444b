// The numbers of the procedures.

ghost use Rattle.std.specs.Prelude.{◌≡◌, ◌+◌, ◌≤◌, ◌^◌};
ghost use Rattle.rt_refs.specs.RefProcs.{ref_proc_number};

/// A procedure, in the order of their numbers.
#[derive(Clone, Copy)]
pub enum RefProc {
    /// A call of a function with a proxy.
    Apply,
    /// A read of a box or a vector.
    Read,
    /// A write of a box or a vector.
    Write,
    /// A new vector.
    Fill,
    /// The loop that stores its elements.
    FillLoop,
    /// The loop of a product.
    ProductLoop,
    /// The loop of quotient and remainder.
    QuotientLoop,
    /// A product.
    Multiply,
    /// A quotient or a remainder.
    Divide,
}

impl RefProc {
    /// The number of the procedure, where the first one has this number.
    pub fn number(self, first: u32) -> u32
        requires room { first + 9 ≤ 2 ^ 32 }
        ensures { result ≡ ref_proc_number self first }
    {
        self as u32 + first
    }
}
