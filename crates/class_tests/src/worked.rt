//! Worked examples: lines of a definition, or of a question for a list, and what it comes to.
use crate::script::transcript;
use std::alloc::Global;
use std::process::Abort;
use std::test::Fail;

/// HyperSpec 4.3.5.2.
const PIE: &str = "PIE APPLE CINNAMON =>
APPLE FRUIT =>
CINNAMON SPICE =>
FRUIT FOOD =>
SPICE FOOD =>
? PIE => no list
FOOD => PIE APPLE CINNAMON FRUIT SPICE FOOD
? PIE => PIE APPLE FRUIT CINNAMON SPICE FOOD STANDARD-OBJECT T
NEW-CLASS FRUIT APPLE => inconsistent: NEW-CLASS
? NEW-CLASS => undefined
";

const PREDEFINED: &str = "? T => T
? STANDARD-OBJECT => STANDARD-OBJECT T
? INTEGER => INTEGER RATIONAL REAL NUMBER T
? RATIONAL => RATIONAL REAL NUMBER T
? REAL => REAL NUMBER T
? NUMBER => NUMBER T
? NULL => NULL SYMBOL LIST SEQUENCE T
? SYMBOL => SYMBOL T
? LIST => LIST SEQUENCE T
? SEQUENCE => SEQUENCE T
? CONS => CONS LIST SEQUENCE T
? STRING => STRING VECTOR ARRAY SEQUENCE T
? VECTOR => VECTOR ARRAY SEQUENCE T
? ARRAY => ARRAY T
? FUNCTION => FUNCTION T
? GENERIC-FUNCTION => GENERIC-FUNCTION FUNCTION T
? STANDARD-GENERIC-FUNCTION => STANDARD-GENERIC-FUNCTION GENERIC-FUNCTION FUNCTION T
? CLASS => CLASS STANDARD-OBJECT T
? STANDARD-CLASS => STANDARD-CLASS CLASS STANDARD-OBJECT T
? BUILT-IN-CLASS => BUILT-IN-CLASS CLASS STANDARD-OBJECT T
? STANDARD-METHOD => STANDARD-METHOD METHOD STANDARD-OBJECT T
? METHOD => METHOD T
? CHARACTER => undefined
";

const FAULTS: &str = "T => program error
INTEGER => program error
STANDARD-OBJECT => program error
METHOD STANDARD-OBJECT => program error
A B C B => program error
A INTEGER => invalid: INTEGER
A B SYMBOL T => invalid: SYMBOL
A T => invalid: T
A A => cycle
? A => undefined
A => A
B A => B
C B => C
A C => cycle
A A => cycle
D E =>
F D =>
E F => cycle
? E => undefined
+E G => incomplete
? E => undefined
C B E => incomplete
C E => incomplete
D E G =>
+G => G
+B A G => B C
";

const INCONSISTENT: &str = "A => A
B => B
C A B => C
D A B => D
E C D => E
C B A => inconsistent: E
? C => C A B STANDARD-OBJECT T
F B A => F
G C F => inconsistent: G
G STANDARD-OBJECT A => inconsistent: G
G A STANDARD-OBJECT => G
H C F I =>
? H => no list
I => inconsistent: H
J H G =>
I J => cycle
H C G I =>
I => H J I
";

/// Two faults at once.
const PAIRS: &str = "A A A => program error
A INTEGER INTEGER => program error
INTEGER SYMBOL => program error
A INTEGER A => invalid: INTEGER
A A INTEGER => invalid: INTEGER
+A A => cycle
+A B A => cycle
A => A
B A => B
A A B => cycle
+C A B D => incomplete
C A B => inconsistent: C
+C A B => inconsistent: C
D A E =>
+B E => incomplete
B E => incomplete
A D => cycle
+A D => cycle
";

const FULL: &str = "INTEGER => program error
A B B => program error
A => table limit
A A => table limit
A INTEGER => table limit
+A B => table limit
";

const ROOM_FOR_ONE: &str = "A => A
B => table limit
A =>
A STANDARD-OBJECT =>
A B => incomplete
B A A => program error
? A => A STANDARD-OBJECT T
";

const CHANGED: &str = "A => A
B => B
C A B => C
D C => D
Z => Z
C B A => C D
C B A =>
? D => D C B A STANDARD-OBJECT T
A Z => A C D
X Y =>
Y => X Y
";

/// The class of a class.
const CLASSES_OF_CLASSES: &str = "A => A
@ A => STANDARD-CLASS, standard
B C =>
@ B => STANDARD-CLASS, standard
@ STANDARD-OBJECT => STANDARD-CLASS, standard
@ T => BUILT-IN-CLASS
@ INTEGER => BUILT-IN-CLASS
@ STANDARD-CLASS => BUILT-IN-CLASS
@ METHOD => BUILT-IN-CLASS
@ C => undefined
";

/// Whether a class is another, or below it.
const BELOW: &str = "B A =>
< B B => no
< B A => undefined
A => B A
< A A => yes
< B A => yes
< A B => no
< B STANDARD-OBJECT => yes
< B T => yes
< B STANDARD-CLASS => no
< INTEGER NUMBER => yes
< NUMBER INTEGER => no
< STANDARD-OBJECT T => yes
< T T => yes
< T STANDARD-OBJECT => no
";

/// Each with the room for its classes.
const SCRIPTS: &[(u64, &str)] = &[
    (7, PIE),
    (0, PREDEFINED),
    (7, FAULTS),
    (10, INCONSISTENT),
    (5, PAIRS),
    (0, FULL),
    (1, ROOM_FOR_ONE),
    (7, CHANGED),
    (2, CLASSES_OF_CLASSES),
    (2, BELOW),
];

#[test]
fn definitions_answer(rt: HostRuntime) -> Result<(), Fail> {
    for (limit, script) in SCRIPTS {
        let lines = transcript(rt.alloc(), *limit, script)?;
        assert_eq!(rt; lines.as_str(), *script);
    }
    Ok(())
}
