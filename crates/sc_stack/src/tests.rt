//! Tests of declarations, assertions and look-ups, with ample memory.

use super::*;
use sc_terms::Sort;
use sc_text::Code;
use std::process::Abort;
use std::test::Fail;

/// Names that can't be declared once `U` and `p` are.
const TAKEN: [&str; 5] = ["U", "p", "and", "Bool", "@a"];

/// What was declared is found, by name and by number.
fn check_names(rt: &impl Abort, stack: &Stack) {
    assert!(rt; matches!(stack.look_up(b"U"), Some(Named::Sort(1))));
    assert!(rt; matches!(stack.look_up(b"p"), Some(Named::Constant(1, Sort::Bool))));
    assert!(rt; matches!(stack.look_up(b"let"), Some(Named::Constant(2, Sort::Int))));
    assert!(rt; stack.look_up(b"q").is_none());
    assert!(rt; stack.constants() == [1, 2].as_slice());
    assert!(rt; stack.in_force() == [7, 5, 7].as_slice());
}

/// No declaration of a taken name is done.
fn check_taken(rt: &impl Abort, stack: &mut Stack) {
    for name in TAKEN {
        assert!(rt;
            matches!(
                stack.declare_sort(name.as_bytes()),
                Err(StackError::Fault(Code::E9))
            )
        );
    }
}

#[test]
fn names_are_found(rt: HostRuntime) -> Result<(), Fail> {
    let mut stack = Stack::new(rt.alloc());
    assert!(rt; matches!(stack.declare_sort(b"U"), Ok(1)));
    assert!(rt; matches!(stack.declare(b"p", Sort::Bool), Ok(1)));
    assert!(rt; matches!(stack.declare(b"let", Sort::Int), Ok(2)));
    assert!(rt; stack.assert(7).is_ok());
    assert!(rt; stack.assert(5).is_ok());
    assert!(rt; stack.assert(7).is_ok());
    check_taken(&rt, &mut stack);
    check_names(&rt, &stack);
    Ok(())
}
