//! Sources, one a line. `;` stands for a line end, and `!` before the token at which no module goes on.

ghost use Rattle.std.specs.Prelude.{◌≤◌, length};

use puya_base::{Blob, Memory, Place, SourceFault};
use py_lexer::tokens;
use py_parser::parse;
use std::alloc::Global;
use std::process::Abort;
use std::test::Fail;

const NOWHERE: Place = Place { line: 0, col: 0 };

/// Modules.
const MODULES: &str = r#"

"doc"
"a" 'b'
import a
import a.b.c as d
from a import b
from a.b import c as d, e
from a import (b)
from a import (b as c, d,)
X = 5
X = "a" "b"
X = b'a'
X = True;Y = False
class A(B):;  pass
class A(b.C):;  "doc";  x: UInt64;  pass;  def f(self) -> None:;    pass
def f(): pass
@a.b(c, d=1);@e;def f(): pass
def f(a, b: C, d: None,) -> None: pass
def f(a: b.C[D, 3, E[F],]) -> G: pass
"#;

/// What is none.
const NO_MODULES: &str = r#"x = !y
x = !-1
X = 1 !+ 2
X = "a" !b"c"
x !+= 1
!else: pass
import a!,
import a !b
from a import!
from a import b,!
from a import (!)
from a import (b,!,)
from a import (b!
class A!: pass
class A(B!, C): pass
class A(B):!
class A(B):;  x!
class A(B):;  y!.z
def f(a !b): pass
def f(a!=1): pass
def f(a)!
def f() -> !1: pass
def f(): !
def f():;!pass
@a;!x = 1
@!-a;def f(): pass
X = 1;  !Y = 2
!return
!(a) = 1
"#;

/// Bodies of functions.
const BODIES: &str = r#"pass
break;  continue
return
return a,
return a, b
x = 1
a.b[c] = d
a, b = c, d
(a, b) = c
x: A = 1, 2
x: A
a += 1
a **= b;  a //= c;  a <<= d;  a |= e
assert a
assert a, "b"
del a.b[c]
"doc"
a.b(c, d=e, f,)
a(b=c)(d)
a[1:2];  a[:2];  a[1:];  a[:];  a[b,];  a[b, c]
x = [], [a,], (), (a,), (a)
x = -a ** -b ** c
x = not a in b and not c or d
x = a not in b
x = a if b else c if d else e
x = a | b ^ c & d << e + f * g // ~h % +i
x = a < b;  x = a >= b;  x = a == b
if a: pass
if a:;    b;  elif c:;    d;  elif e: f;  else:;    g
while a: b
for a in b:;    c
x = True, False, 1, "a" "b", b"c"
"#;

/// What is none.
const NO_BODIES: &str = r#"return (1 +!)
return 1 < 2 !< 3
return a not !b
x = !lambda: 1
a = b != c
x: != 1
a += b !+= c
!else:;    pass
if a:;  !b
if a !b: c
if a: b;  elif!: c
while a!
for a!, b in c: d
for !1 in a: b
del a!, b
del !-a
assert a, b!, c
return !return
pass !pass
f(a.b!=c)
f(1 !=2)
f(a, !, b)
a[!]
a[1:2!:3]
a[1, 2!:3]
x = a if b!
x = a if b else!
x = (a, b!
x = [a !b]
x = a.!
x = !*a
x = a !is b
x = a +!
x = not!
a !b
"a" !b"c"
if a: !if b: c
!def g(): pass
!@a
!import a
"#;

/// The source of a row, and the place that it marks.
fn read(alloc: Global, row: &str) -> Result<(Blob, Place), Memory> {
    let mut source = Blob::new(alloc);
    let mut here = Place { line: 1, col: 1 };
    let mut marked = NOWHERE;
    for byte in row.as_bytes() {
        if *byte == b'!' {
            marked = here;
        } else if *byte == b';' {
            source.push(b'\n')?;
            here = Place {
                line: here.line.saturating_add(1),
                col: 1,
            };
        } else {
            source.push(*byte)?;
            here.col = here.col.saturating_add(1);
        }
    }
    Ok((source, marked))
}

/// Where no module goes on, or no place where there is one.
fn stop(alloc: Global, source: &[u8]) -> Result<Place, SourceFault>
    requires { length source.now ≤ 1048576 }
{
    let tokens = tokens(alloc, source)?;
    match parse(alloc, source, &tokens) {
        Ok(_) => Ok(NOWHERE),
        Err(SourceFault::Refused(refusal)) => Ok(refusal.place),
        Err(SourceFault::Memory) => Err(SourceFault::Memory),
    }
}

fn check(rt: &impl Abort, alloc: Global, row: &str) -> Result<(), Fail> {
    let (source, marked) = read(alloc, row)?;
    assert!(rt; source.len() <= 1_048_576);
    let found = stop(alloc, source.as_slice())?;
    assert_eq!(rt; (found.line, found.col), (marked.line, marked.col), "{row}");
    Ok(())
}

#[test]
fn modules(rt: HostRuntime) -> Result<(), Fail> {
    for row in MODULES.lines() {
        check(&rt, rt.alloc(), row)?;
    }
    Ok(())
}

#[test]
fn no_modules(rt: HostRuntime) -> Result<(), Fail> {
    for row in NO_MODULES.lines() {
        check(&rt, rt.alloc(), row)?;
    }
    Ok(())
}

fn check_body(rt: &impl Abort, alloc: Global, row: &str) -> Result<(), Fail> {
    let source = format!(in alloc; "def f():;  {row}")?;
    check(rt, alloc, source.as_str())
}

#[test]
fn bodies(rt: HostRuntime) -> Result<(), Fail> {
    for row in BODIES.lines() {
        check_body(&rt, rt.alloc(), row)?;
    }
    Ok(())
}

#[test]
fn no_bodies(rt: HostRuntime) -> Result<(), Fail> {
    for row in NO_BODIES.lines() {
        check_body(&rt, rt.alloc(), row)?;
    }
    Ok(())
}
