// Values on the heap, and what several calls have made.

ghost use Rattle.std.specs.Prelude.{◌≡◌, IfOk, Ok};

use crate::lists::OutOfMemory;
use std::alloc::Global;

/// A value on the heap, beside one that is kept. `OutOfMemory` where the heap has no room; both are dropped then.
pub fn boxed_beside<T: Drop, K: Drop>(
    alloc: Global,
    value: T,
    kept: K,
) -> Result<(Box<T>, K), OutOfMemory>
    ensures value { IfOk result (λ both. both.0.value ≡ value) }
    ensures kept { IfOk result (λ both. both.1 ≡ kept) }
{
    let value = boxed(alloc, value)?;
    Ok((value, kept))
}

/// What was made, on the heap. `OutOfMemory` where nothing was made, or the heap has no room.
pub fn boxed_made<T: Drop>(
    alloc: Global,
    made: Result<T, OutOfMemory>,
) -> Result<Box<T>, OutOfMemory>
    ensures { IfOk result (λ b. made ≡ Ok b.value) }
{
    Ok(boxed(alloc, made?)?)
}

/// Two values on the heap. `OutOfMemory` where it has no room; both are dropped then.
pub fn both_boxed<A: Drop, B: Drop>(
    alloc: Global,
    first: A,
    second: B,
) -> Result<(Box<A>, Box<B>), OutOfMemory>
    ensures first { IfOk result (λ two. two.0.value ≡ first) }
    ensures second { IfOk result (λ two. two.1.value ≡ second) }
{
    let (first, second) = boxed_beside(alloc, first, second)?;
    let second = boxed(alloc, second)?;
    Ok((first, second))
}

/// Two things that were made, or `OutOfMemory` where one of them wasn't. So a function that makes several has one exit,
/// at which it holds none of them.
pub fn both<A: Drop, B: Drop>(
    first: Result<A, OutOfMemory>,
    second: Result<B, OutOfMemory>,
) -> Result<(A, B), OutOfMemory>
    ensures first { IfOk result (λ two. first ≡ Ok two.0) }
    ensures second { IfOk result (λ two. second ≡ Ok two.1) }
    ensures made { (a : A) → (b : B) → first ≡ Ok a → second ≡ Ok b → result ≡ Ok (a, b) }
{
    let first = first?;
    Ok((first, second?))
}

/// A value beside what was made; it is dropped where nothing was made, which alone is `OutOfMemory`.
pub fn beside<T: Drop, R: Drop>(
    value: T,
    made: Result<R, OutOfMemory>,
) -> Result<(T, R), OutOfMemory>
    ensures value { IfOk result (λ both. both.0 ≡ value) }
    ensures made { IfOk result (λ both. made ≡ Ok both.1) }
    ensures beside { (r : R) → made ≡ Ok r → result ≡ Ok (value, r) }
{
    match made {
        Ok(made) => Ok((value, made)),
        Err(fault) => Err(fault),
    }
}

/// A value on the heap. `OutOfMemory` where it has no room; the value is dropped then.
pub fn boxed<T: Drop>(alloc: Global, value: T) -> Result<Box<T>, OutOfMemory>
    ensures { IfOk result (λ b. b.value ≡ value) }
{
    Ok(Box::new(alloc, value)?)
}
