//! Dependents that a host makes itself.
ghost use Rattle.std.specs.Prelude.{◌≤◌, ◌+◌, vec_capacity, vec_len};

use clos_system::{Dependent, Limits, Notice, Session, run};
use lisp_data::Name;
use std::alloc::AllocError;
use std::test::Fail;

/// A dependent that keeps what it hears, as long as it has room.
#[derive(Drop)]
struct Full {
    notices: Vec<Notice>,
    room: usize,
    ghost reserved: { vec_len notices + room ≤ vec_capacity notices },
}

impl Dependent for Full {
    ghost told = { λ it. it.notices.items };

    ghost room = { λ it. it.room };

    fn prepare(&mut self, count: usize) -> Result<(), AllocError> {
        if count <= self.room {
            Ok(())
        } else {
            Err(AllocError)
        }
    }

    fn tell(&mut self, notice: &Notice) -> i64 {
        self.room -= 1;
        let _ = self.notices.push(*notice);
        0
    }

    fn heard(&self) -> &[Notice] {
        self.notices.as_slice()
    }
}

/// A form has no effect where a dependent of what it would change has no room for the notices.
#[test]
fn a_dependent_without_room(rt: HostRuntime) -> Result<(), Fail> {
    let alloc = rt.alloc();
    let notices = Vec::new(alloc);
    let full: Box<dyn Dependent> = Box::new(alloc, Full { notices, room: 0 })?;
    let mut dependents = Vec::new(alloc);
    dependents.push((Name::fixed(&"FULL"), full))?;
    let mut session = Session::new(alloc, Limits::default(), Vec::new(alloc), dependents)?;
    let mut source =
        b"(defmethod g (x) 1) (add-dependent #'g 'full) (defmethod g (x) 2) (princ (g 0))
(defmethod g (x y) 3) (defmethod h (x) 4) (princ (h 0))"
            .as_slice();
    let mut output = Vec::new(alloc);
    let summary = run(alloc, &mut session, &mut source, &mut output, false)?;
    let written = b"; 0 (STORAGE 0)\n1\n; 12 (LAMBDA-LIST-CONGRUENCE G)\n4".as_slice();
    assert_eq!(rt; output.as_slice(), written);
    assert_eq!(rt; summary.storages, 1);
    let heard = session.heard(&Name::fixed(&"FULL"));
    assert_eq!(rt; heard.map(|notices| notices.len()), Some(0));
    Ok(())
}
