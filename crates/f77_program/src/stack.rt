// Stacks on which operands lie, the first of a part's on top.

ghost use Rattle.std.specs.Prelude.{◌≡◌, ◌<◌, ◌≤◌, ◌++◌, List, [], ◌∷◌, length, reverse, IfOk, OnOk};

use std::alloc::AllocError;

/// What lies on top of the stack.
pub fn popped<T>(stack: &mut Vec<T>) -> T
    requires { 0 < length stack.old.items }
    ensures { (front : List T) (x : T) → stack.old.items ≡ front ++ x ∷ []
        → (stack.new.items ≡ front) × (result ≡ x) }
{
    stack.pop().unwrap()
}

/// So many things from the top of the stack, the topmost first.
pub fn taken<T: Drop>(stack: &mut Vec<T>, count: usize) -> Result<Vec<T>, AllocError>
    requires { count ≤ length stack.old.items }
    ensures left { OnOk result ((front xs : List T) → stack.old.items ≡ front ++ reverse xs
        → length xs ≡ count → stack.new.items ≡ front) }
    ensures top { IfOk result (λ v. (front xs : List T) → stack.old.items ≡ front ++ reverse xs
        → length xs ≡ count → v.items ≡ xs) }
{
    let mut top = stack.split_off(stack.len() - count)?;
    top.reverse();
    Ok(top)
}

/// One thing more on top.
pub fn push<T: Drop>(stack: &mut Vec<T>, x: T) -> Result<(), AllocError>
    ensures { OnOk result (stack.new.items ≡ stack.old.items ++ x ∷ []) }
{
    stack.push(x)?;
    Ok(())
}
