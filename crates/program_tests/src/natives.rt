//! The functions that the program stores answer programs, and the session keeps their answers.
use clos_command_line::settings;
use clos_program::{Native, Output, Relation, Session, affine, limits, low, program};
use lisp_data::Name;
use std::test::Fail;

#[test]
fn stored_functions_answer(rt: HostRuntime) -> Result<(), Fail> {
    let alloc = rt.alloc();
    let mut coefficients = Vec::new(alloc);
    coefficients.push(3)?;
    coefficients.push(-2)?;
    let relation = Relation::Clamped {
        coefficients,
        constant: 7,
        lo: -1_000,
        hi: 1_000,
    };
    let affine = Native::new(
        Name::fixed(&"AFFINE"),
        2,
        relation,
        Box::new(alloc, affine)?,
    );
    let relation = Relation::Within { lo: 0, hi: 15 };
    let low = Native::new(Name::fixed(&"LOW"), 1, relation, Box::new(alloc, low)?);
    let mut natives = Vec::new(alloc);
    natives.push(affine)?;
    natives.push(low)?;
    let words = settings(alloc, &["clos"])?;
    let mut session = Session::new(alloc, limits(&words), natives, Vec::new(alloc))?;
    let mut text =
        "(princ (list (native-call 'affine 1 2) (native-call 'affine 1000 0) (native-call 'low 23)))
(princ (native-call 'affine -9223372036854775808 9223372036854775807))"
            .as_bytes();
    let mut output = Vec::new(alloc);
    let mut errors = Vec::new(alloc);
    let status = program(
        &rt,
        alloc,
        &mut session,
        &words,
        &mut text,
        &mut Output::new(&mut output),
        &mut errors,
    );
    assert_eq!(rt; status, 0);
    assert_eq!(rt; output.as_slice(), b"(6 1000 7)-1000".as_slice());
    assert_eq!(rt; session.answers(), [6, 1_000, 7, -1_000].as_slice());
    Ok(())
}
