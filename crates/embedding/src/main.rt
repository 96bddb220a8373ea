//! A program that performs forms in a session of its own, to which it hands a function and a dependent (docs/EMBEDDING.md).
#![tactic(auto)]

ghost use Rattle.std.specs.Prelude.{◌≡◌, ◌≤◌, ◌+◌, pos, false, int_lt, length, vec_capacity, vec_len};

use clos_system::{
    Dependent, Dependents, Limits, Native, Natives, Notice, Relation, Reply, Session, print_notice,
};
use lisp_data::{Name, Value, prin1};
use lisp_reader::read_form;
use std::alloc::{AllocError, Global};
use std::io;

/// The forms that the session performs.
const SOURCE: &[u8] = b"(defclass kettle () ((litres :initarg :litres :accessor litres)))
(defvar *kettle* (make-instance 'kettle :litres 2))
(add-dependent #'litres 'log)
(defmethod litres :after ((k kettle)) (princ \"Asked. \"))
(list (litres *kettle*) (native-call 'percent 250))
(litres 5)
(defclass kettle () ((litres :initarg :litres :accessor litres) (lid :initform 'shut)))";

/// The nearest number from 0 to 100.
fn percent(arguments: &[i64]) -> i64
    requires { length arguments.now ≡ 1 }
    ensures { (int_lt result (pos 0) ≡ false) × (int_lt (pos 100) result ≡ false) }
{
    arguments[0].clamp(0, 100)
}

/// A dependent that keeps what it hears.
#[derive(Drop)]
struct Log {
    notices: Vec<Notice>,
    /// How many more it has room for.
    room: usize,
    ghost reserved: { vec_len notices + room ≤ vec_capacity notices },
}

impl Dependent for Log {
    ghost told = { λ it. it.notices.items };

    ghost room = { λ it. it.room };

    fn prepare(&mut self, count: usize) -> Result<(), AllocError> {
        if count > self.room {
            self.notices.reserve(count)?;
            self.room = count;
        }
        Ok(())
    }

    fn tell(&mut self, notice: &Notice) -> i64 {
        self.room -= 1;
        let _ = self.notices.push(*notice);
        0
    }

    fn heard(&self) -> &[Notice] {
        self.notices.as_slice()
    }
}

/// Prints a value as the session does.
fn print_value<N: Natives, D: Dependents>(
    rt: &HostRuntime,
    session: &Session<N, D>,
    value: &Value,
) -> io::Result<()> {
    let text = prin1(rt.alloc(), value, session.world())?;
    rt.println(str::from_utf8(text.as_slice()).unwrap_or("?"))
}

/// Prints the answer to a form.
fn print_reply<N: Natives, D: Dependents>(
    rt: &HostRuntime,
    session: &Session<N, D>,
    reply: &Reply,
) -> io::Result<()> {
    match reply {
        Reply::Value(value) => print_value(rt, session, value),
        Reply::Condition { number, items } => {
            println!(rt; "condition {number}, about:")?;
            for item in items.as_slice() {
                print_value(rt, session, item)?;
            }
            Ok(())
        }
        Reply::Storage { steps } => println!(rt; "memory was refused after {steps} steps"),
    }
}

/// Submits the forms of the source in order, and prints the answers.
fn submit_all<N: Natives, D: Dependents>(
    rt: &HostRuntime,
    session: &mut Session<N, D>,
) -> io::Result<()> {
    let mut at = 0;
    for _ in 0..SOURCE.len() {
        match read_form(rt.alloc(), SOURCE, at.min(SOURCE.len())) {
            Ok(Some((datum, next))) => {
                let reply = session.submit(&datum);
                print_reply(rt, session, &reply)?;
                at = next;
            }
            Ok(None) => return Ok(()),
            Err(fault) => return println!(rt; "{fault}"),
        }
    }
    Ok(())
}

fn main(rt: HostRuntime) -> io::Result<()> {
    let alloc = rt.alloc();
    let relation = Relation::Within { lo: 0, hi: 100 };
    let percent = Native::new(
        Name::fixed(&"PERCENT"),
        1,
        relation,
        Box::new(alloc, percent)?,
    );
    let mut natives = Vec::new(alloc);
    natives.push(percent)?;
    let log: Box<dyn Dependent> = Box::new(
        alloc,
        Log {
            notices: Vec::new(alloc),
            room: 0,
        },
    )?;
    let mut dependents = Vec::new(alloc);
    dependents.push((Name::fixed(&"LOG"), log))?;
    let mut session = Session::new(alloc, Limits::default(), natives, dependents)?;
    submit_all(&rt, &mut session)?;
    rt.println(str::from_utf8(session.written()).unwrap_or("?"))?;
    for notice in session.heard(&Name::fixed(&"LOG")).unwrap_or(&[]) {
        let text = print_notice(alloc, session.world(), notice)?;
        rt.println(str::from_utf8(text.as_slice()).unwrap_or("?"))?;
    }
    Ok(())
}
