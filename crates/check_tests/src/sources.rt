//! Sources with the first rule that each breaks, or `ok`, one a line. `;` stands for a line end, and a grave accent before the place of the rule.

ghost use Rattle.std.specs.Prelude.{◌≤◌, length};

use compiler::{CompileFault, compile};
use puya_base::{Blob, Level, Memory, Place};
use std::alloc::Global;
use std::process::Abort;
use std::test::Fail;

const NOWHERE: Place = Place { line: 0, col: 0 };

/// Bodies of `f(x: UInt64, b: Bytes, c: bool, s: String, a: Account) -> UInt64`.
const BODIES: &str = r#"P08 b = op.`keccak256(b);return x
P08 x = UInt64.`from_bytes(b);return x
P09 return `y
P09 x = Txn.`foo;return x
P09 x = op.`foo(x);return x
P09 x = `foo.bar;return x
P09 x = x.`foo;return x
P09 x = f(x, b, c, s, `z=a);return x
P09 b = op.itob(`x=x);return x
P09 y: `Foo = x;return x
P09 x = `self.x;return x
P09 return 1 + `y
P09 x = `foo(1);return x
P09 x = s.`length;return x
P10 `log = UInt64(1);return x
ok tuple = x;x = tuple;return x
P10 `op = x;y = z;return x
P13 y: `None = x;return x
P13 y: tuple[UInt64, tuple[`log]] = x;return x
P13 y = `();return x
P13 y: `log = x;return x
P14 y = `5;return x
P14 x = x + `b;return x
P14 c = `b < 5;return x
P14 x = `x / 5;return x
P14 b = `5 + b;return x
P14 if `1:;    x = x;return x
P14 log(`5);return x
P14 c = not `1;return x
P14 assert `1;return x
P14 c = bool(`1);return x
P14 x = op.bitlen(`1);return x
P14 x = op.getbit(`1, 0);return x
P14 return `1 < 2
P14 return `1 + 2
P14 y = `5 if c else 6;return x
P14 `5;return x
P14 `b"x";return x
P14 x = `-1;return x
P14 x = `-1 + x;return x
P14 y: tuple[UInt64, Bytes] = (1, `2);return x
ok return 1 if c else 2
ok b = b[0] + b[1:x] + b[:2];for i in urange(3):;    x = x ** 2 + i;return x
P14 y = `[x];return x
P14 c = bool(`a);return x
P14 c = `not a;return x
P14 if `a:;    x = x;return x
ok log(a, x, b, s);return x
P14 log(`c);return x
P14 x = UInt64(`x);return x
ok x = UInt64(c);return x
P14 b = Bytes(`"a");return x
P14 c = x in `b;return x
P14 x = `x(x);return x
P14 a = `Account(b);return x
P14 `return
P14 return `b
P14 x = `b;return x
P14 x = `"a";return x
P14 y = x;y = `b;return x
P14 y: Bytes;y = `x;return x
P14 y = x;y: `Bytes;return x
ok "a";("b");return x
P14 y = `op;return x
P14 y = `UInt64;return x
P14 assert c, `x;return x
P14 assert c, `5;return x
P14 t = (x, b);x = t[`2];return x
P14 t = (x, b);x = t[`x];return x
P14 x = `x[0];return x
P14 x = `x[0:1];return x
P14 b = Bytes.from_hex(`"0");return x
ok b = Bytes.from_hex("00fF");return x
P14 for i in `x:;    x = i;return x
P14 for i in `"abc":;    x = x;return x
P14 for `b in urange(x):;    x = x;return x
P14 for i in b:;    x = `i;return x
P14 while `1:;    x = x;return x
P14 y = x if c else `b;return x
P14 x = `x,;return x
P14 x = `(x,);return x
ok x = (x);(x) = 1;if (True):;    x = (2);return x
P14 b = b[`1,];return x
P14 (x, b) = `(x,);return x
P14 x, b = `b, x;return x
P14 x, b = `x;return x
P14 x += `b;return x
P14 `b -= 1;return x
ok x += 1;x **= 2;return x
ok h, l = op.addw(x, 1);x = h + l;return x
ok x = Txn.application_id.id + Global.current_application_id.id;return x
P14 y = `Txn.application_id;return x
ok x = OnCompleteAction.OptIn + Txn.fee;a = Txn.sender;b = Txn.application_args(0);return x
ok x = op.getbit(x, 1) + op.getbit(b, 0);return x
P14 b = op.setbit_bytes(b, 0, `True);return x
P15 x = `UInt64(1, 2);return x
P15 x = `f(x, b, c, s);return x
P15 x = `f(x, b, c, s, a, a);return x
P15 x = f(x, b, c, s, a, `x=x);return x
P15 x = f(x, b, c, a=a, `s);return x
ok x = f(s=s, b=b, a=a, x=1, c=c);return x
P15 for i in urange(1, 2, `0):;    x = i;return x
P15 for i in urange(1, 2, `x):;    x = i;return x
P15 for i in `urange():;    x = x;return x
P15 b = `op.itob();return x
P15 `log();return x
P16 `5 = x;return x
P16 del `x;return x
P16 `b.length = x;return x
P16 `b.length: UInt64 = x;return x
P16 `x, b: UInt64;return x
P16 `x, b += 1;return x
P16 x, `5 = x, x;return x
P17 if c:;    y = x;return `y
ok if c:;    y = x;else:;    y = x + 1;return y
P17 while c:;    y = x;return `y
P17 for i in urange(3):;    x = i;return `i
P17 i = x;for i in urange(3):;    x = i;return `i
ok while True:;    y = x;    if c:;        break;return y
P17 while True:;    if c:;        break;    y = x;return `y
P17 x = `y;y = x;return x
P17 y = `y + x;return x
P17 while not False:;    y = x;    if c:;        break;return `y
P17 return x;x = `y;y = x
P17 y: UInt64;x = `y;return x
P17 while c:;    if c:;        x = `y;    y = x;return x
P19 `break;return x
P19 if c:;    `continue;return x
ok while c:;    if c:;        break;    continue;return x
P17 while bool(True):;    y = x;    if c:;        break;return `y
ok x = x;return x
P14 y = `C;return x
P14 y = `f;return x
P14 y = `C();return x
P09 y = f.`x;return x
P09 y = UInt64.`x;return x
ok x = f(x, b, c, s, a) + op.itob(x).length;b = a.bytes + s.bytes;return x
P10 b = b;`Txn = x;return x
P17 while True:;    while c:;        break;    if c:;        break;    y = x;return `y
ok y = x;while y < 5:;    if c:;        y += 1;        continue;    y += 2;return y
P14 if c:;    x = x;elif x == 1:;    x = x;elif b == `1:;    x = x;else:;    x = x;return x
P14 c = x not in `b;return x
P14 c = `x and c;return x
P14 c = c and `x;return x
P13 y: `tuple[tuple[tuple[tuple[tuple[tuple[tuple[tuple[tuple[tuple[tuple[tuple[tuple[tuple[tuple[tuple[tuple[tuple[tuple[tuple[tuple[tuple[tuple[tuple[tuple[tuple[tuple[tuple[tuple[tuple[tuple[tuple[tuple[UInt64]]]]]]]]]]]]]]]]]]]]]]]]]]]]]]]]] = x;return x
ok x = x ** 2 << 1 >> 1 | x & ~x ^ 1;return x
ok c = s == "a" and "b" != s and b == b"a" and a == a and c == True;return x
P14 c = `a < a;return x
P14 c = `s < "a";return x
P14 c = `(x, x) == (x, x);return x
P14 x = (`1 + 2) + x;return x
P14 x = x if c else `"a";return x
P09 x = f(x, b, c, s, a=`y);return x
P09 x = f(x, b, c, s, `y=z);return x
P14 for i in `s:;    x = x;return x
P14 b = b[x:`a];return x
ok b = b[:];return x
P14 x = `b"abc".length;return x
P08 b = Bytes.`from_bytes(b);return x
P08 s = String.`from_bytes(b);return x
P08 a = Account.`from_bytes(b);return x
P08 x = op.`Scratch.load(x);return x
P08 c = op.`ed25519verify(b, b, b);return x
P08 y = op.`AppGlobal;return x
P08 b = op.`sha3_256(y);return x
P08 x = op.`EllipticCurve(z);return x
P09 x = op.`Foo.bar(x);return x
P09 x = Global.`foo;return x
P09 x = OnCompleteAction.`Foo;return x
P09 x = Txn.application_id.`foo;return x
P09 b = b.`bytes;return x
P09 x = a.`length;return x
P09 x = c.`length;return x
P09 x = x.`length;return x
P09 t = (x, b);x = t.`length;return x
P09 b = Bytes.`foo("00");return x
P09 x = f(x, b, c, s, a, `q=1);return x
P09 log(x, `sep=x);return x
P09 for i in urange(`stop=x):;    x = i;return x
P09 x = UInt64(`value=1);return x
P09 y: tuple[UInt64, `Foo] = x;return x
P09 x = `self;return x
P09 b = b / `y;return x
P09 x = f(`y);return x
P09 x = UInt64(`y, 2);return x
P09 y = 5 if c else `z;return x
P09 y = 5 == `z;return x
P09 y = not `z;return x
P09 y = -`z;return x
P09 y = x[`z];return x
P09 y = x[0:`z];return x
P09 y = x(`z);return x
P09 y = x if `z else 5;return x
P09 c = c and `z;return x
P09 y = `z;log = x;return x
P09 x = `z;if c:;    y = x;return y
P09 y = `z;break;return x
P09 x = `foo(5);return x
P09 x = `foo.bar(5).baz;return x
P09 del `y;return x
P09 if `z:;    y = x;return y
P09 for i in `z:;    y = i;return x
P09 assert `z, x;return x
P10 for `log in urange(3):;    x = log;return x
P10 y, `log = x, x;return x
P10 `log: UInt64;return x
P10 `f = x;return x
P10 `C = x;return x
P10 `UInt64 = x;return x
P10 if c:;    `log = x;y = z;return x
P10 x = x;`op = x;op = y;return x
P17 x = `log;log = x;return x
ok bool = x;x = bool;return x
P13 y: tuple[UInt64, `None] = x;return x
P13 y: `UInt64[UInt64] = x;return x
P13 y: `tuple = x;return x
P13 y: `op = x;return x
P13 y: `f = x;return x
P13 y: `C = x;return x
P13 y: `Txn = x;return x
P13 x, b = `();return x
P13 log(`());return x
P13 y = x, `();return x
P14 x = x + `s;return x
P14 b = b + `x;return x
P14 b = b + `s;return x
P14 x = `c + x;return x
P14 a = `a + a;return x
P14 t = (x, b);y = `t + t;return x
P14 c = x == `b;return x
P14 c = b == `s;return x
P14 c = a != `b;return x
P14 c = `1 == c;return x
P14 c = `c < c;return x
P14 b = `b < b;return x
P14 x = x & `c;return x
P14 b = `b | b;return x
P14 b = `~b;return x
P14 x = `+x;return x
P14 x = `-x;return x
P14 b = `-b;return x
P14 x = `s // 2;return x
P14 x = x ** `b;return x
P14 x = x % `"a";return x
P14 x = `c * 2;return x
P14 x = `2 * c;return x
P14 c = `x or c;return x
P14 c = c or `1;return x
P14 c = `1 and c;return x
P14 c = c and `b;return x
P14 y = x if `1 else x;return x
P14 y = x if `a else x;return x
P14 if c:;    x = x;elif `1:;    x = x;return x
P14 if c:;    x = x;elif `a:;    x = x;return x
P14 while `a:;    x = x;return x
P14 while `"a":;    x = x;return x
P14 assert `a;return x
P14 assert `(x, b);return x
P14 assert c, `s;return x
P14 assert c, `b"a";return x
P14 assert c, `"a" + "b";return x
ok assert c, "a" "b";assert x, "no";assert b;assert s;return x
P14 return `c
P14 return `x,
P14 return `(x,)
P14 return `x, x
P14 return `"a"
P14 return `True
P14 return (`1 + 2)
P14 c = `op.getbit(b, 0);return x
P14 x = op.setbit_uint64(x, 0, `c);return x
ok x = op.setbit_uint64(x, 0, 1);b = op.setbit_bytes(b, 0, 1);x = op.getbit(b, 0) + op.getbit(x, 0);return x
P14 x = `op.addw(x, 1);return x
P14 y = `urange(3);return x
P14 y = `urange;return x
P14 for i in `urange:;    x = x;return x
P14 x = `Txn.sender;return x
P14 x = `Txn.sender();return x
P14 b = Txn.application_args(`b);return x
P14 y = `log;return x
P14 y = `op.itob;return x
P14 y = `Txn;return x
P14 y = `Global;return x
P14 y = `OnCompleteAction;return x
P14 y = `tuple;return x
P14 y = `bool;return x
P14 y = `tuple(x);return x
P14 y = `Txn(x);return x
P14 y = `op(x);return x
P14 y = `Txn.application_args;return x
P14 y = `Global.current_application_id;return x
P14 y = `Bytes.from_hex;return x
P14 y = `Contract;return x
P14 x = `5(x);return x
P14 y = `[];return x
P14 `[x];return x
P14 c = `not (x, x);return x
P14 c = bool(`(x, x));return x
P14 log(`(x, x));return x
P14 log(`"a");return x
P14 log(x, `5);return x
P14 log(x, `c);return x
P14 b = b[`c];return x
P14 b = b[`1, 2];return x
P14 b = b[`x, x];return x
P14 b = b[`s:];return x
P14 b = b[:`"a"];return x
P14 s = `s[0];return x
P14 s = `s[0:1];return x
P14 a = `a[0];return x
P14 t = (x, b);x = t[`c];return x
P14 t = (x, b);x = t[`x + 1];return x
P14 t = (x, b);x = t[`"a"];return x
P14 t = (x, b);b = `t[0];return x
P14 t = (x, b);b = `t[0:1];return x
ok t = (x, b);x = t[0];b = t[1];return x
ok t = (x, (b, c));x, u = t;b = t[1][0];c = u[1];return x
P14 x, b = `x, x;return x
P14 x, b, y = `x, b;return x
P14 x, b = `(x, b), x;return x
P14 `c += 1;return x
P14 x += `"a";return x
P14 s += `b;return x
P14 `c &= c;return x
ok s += "a";b += b"x";x -= 1;x *= 2;x //= 3;x %= 4;x &= 5;x |= 6;x ^= 7;x <<= 1;x >>= 1;return x
P14 f(`b, b, c, s, a);return x
P14 x = f(x, b, c, `b"a", a);return x
P14 x = f(x, b, c, s, a=`1);return x
P14 x = f(x, b, c, s, a=`x);return x
P14 x = f(x, b, c=`1, s=s, a=a);return x
P14 x = UInt64(`"a");return x
P14 x = UInt64(`b);return x
P14 s = String(`b"a");return x
P14 s = String(`s);return x
P14 b = Bytes(`b);return x
P14 b = Bytes(`1);return x
P14 b = Bytes.from_hex(`b"00");return x
P14 b = Bytes.from_hex(`b);return x
P14 b = Bytes.from_hex(`"0g");return x
ok x = UInt64();b = Bytes();s = String();c = bool(c);c = bool(x);c = bool(b);c = bool(s);x = UInt64(True);return x
ok y = 5 if c else x;y = x if c else 5;y = (5) if c else x;return y
ok t: tuple[UInt64, UInt64] = (1, 2) if c else (3, x);return t[0]
ok y = 5 if c else 6 if c else x;return y
P14 y = `"a" if c else x;return x
P14 y = x if c else `b"a";return x
P14 y = (`1, 2) if c else (x, x);return x
P14 y = `1, x;return x
P14 x = `(b);return x
P14 b = op.itob(`b);return x
P14 b = op.sha256(`x);return x
P14 x = op.bitlen(`c);return x
P14 x = op.getbit(`c, 0);return x
P14 b = op.concat(b, `s);return x
P14 b = op.itob(`"a");return x
ok b = op.itob(1);b = op.concat(b"a", b"b");b = op.bzero(2);return x
P14 x = `c(x);return x
P14 x = `f(x, b, c, s, a)(x);return x
P14 c = b in `b;return x
P14 c = 1 in `x;return x
P14 y: UInt64 = `c;return x
P14 y: bool = `1;return x
P14 t: tuple[UInt64, Bytes] = `(b, b);return x
P14 t: tuple[UInt64, Bytes] = (`"a", b);return x
P14 t: tuple[UInt64, Bytes] = `x;return x
P14 for i in urange(`b):;    x = i;return x
P14 for i in urange(1, `c):;    x = i;return x
P14 for i in urange(`"a", 2):;    x = i;return x
P14 for i in `5:;    x = x;return x
P14 for i in `(x, x):;    x = x;return x
P14 for `x in b:;    c = c;return x
P14 i = x;for `i in b:;    x = x;return x
P15 x = f(x=x, b=b, c=c, s=s, a=a, `x=x);return x
P15 x = `f();return x
P15 b = `Bytes(b"a", b"b");return x
P15 s = `String("a", "b");return x
P15 c = `bool();return x
P15 c = `bool(x, x);return x
P15 b = `Bytes.from_hex();return x
P15 x = `op.btoi(b, b);return x
P15 x = `op.sqrt();return x
P15 x = `op.setbit_uint64(x, 1);return x
P15 b = `op.itob(1, 2);return x
P15 b = `Txn.application_args(0, 1);return x
P15 x = `op.sqrt(x, 2);return x
P14 x = op.getbit(`1, 0, 0);return x
P13 () = `();return x
P14 () = `x;return x
P15 for i in `urange(1, 2, 3, 4):;    x = i;return x
P15 for i in urange(1, 2, `c):;    x = i;return x
P15 for i in urange(1, 2, `"a"):;    x = i;return x
P15 b = `Txn.application_args();return x
P15 x = x + `f(x);return x
ok for i in urange(1, 9, 2):;    x = i;for i in urange(x, 9):;    x = i;return x
P16 `b[0] = b;return x
P16 `b[0:1] = b;return x
P16 `f(x, b, c, s, a) = x;return x
P16 `x + 1 = x;return x
P16 `"a" = x;return x
P16 `True = c;return x
P16 `Txn.fee = x;return x
P16 t = (x, b);`t[0] = x;return x
P16 t = (x, b);del `t[0];return x
P16 del `b[0];return x
P16 del `b.length;return x
P16 del `5;return x
P16 del `f(x, b, c, s, a);return x
P16 x, `b.length = x, x;return x
P16 x, `b[0] = x, b;return x
P16 x, `(x, x) = x, (x, x);return x
P16 `b[0] += b;return x
P16 `5 += 1;return x
P16 `b.length += 1;return x
P16 `x if c else x = x;return x
P16 `b[0]: Bytes = b;return x
P16 `x, b: UInt64 = x;return x
P16 x = x;del `x;y = z;return x
ok (x, y) = x, x;(x) += 1;x, x = 1, 2;x, y = (1, x);return y
ok x, y = op.addw(x, x) if c else (x, x);return x
ok if True:;    y = x;return y
P17 if False:;    pass;else:;    y = x;return `y
ok if c:;    y = x;elif True:;    y = x;return y
P17 if c:;    y = x;elif c:;    y = x;return `y
P17 while True and True:;    y = x;    if c:;        break;return `y
P17 `y += 1;return x
P17 y: UInt64;`y += 1;return x
P17 for i in urange(2):;    for i in urange(3):;        x = i;    x = `i;return x
ok for i in b:;    b = i;for i in b:;    b = i;return x
P17 for i in b:;    y = i;log(`y);return x
P17 y, z = x, `z;return x
ok if c:;    return x;else:;    y = x;return y
ok while True:;    if c:;        y = x;        break;return y
P17 while True:;    if c:;        y = x;        break;    if x > 5:;        break;return `y
P17 if c:;    y = x;else:;    assert False;return `y
P17 y: bool;c = c and `y;return x
P17 y: bool;c = `y if c else c;return x
P17 y: UInt64;if c:;    x = `y;return x
P17 y: Bytes;log(`y);return x
P17 t: tuple[UInt64, Bytes];x = `t[0];return x
P17 y: UInt64;x = f(`y, b, c, s, a);return x
P17 y: UInt64;x, b = `y, b;return x
P17 y: bool;while `y:;    y = c;return x
P17 y: UInt64;for i in urange(`y):;    y = i;return x
P17 if c:;    y = x;x = `y;x = z;return x
ok y = x;return x;x = y;return x
ok y: UInt64;return x;x = y;return x
ok while c:;    y = x;    if y < 5:;        continue;    x = y;return x
ok while c:;    break;    x = x;return x
P19 `continue;return x
P19 while c:;    pass;`break;return x
P19 if c:;    for i in urange(3):;        pass;    `break;return x
P19 x = x;`break;y = z;return x
P19 for i in b:;    break;`continue;return x
ok for i in b:;    if c:;        break;    else:;        continue;return x
ok x, h = op.mulw(x, 2);q, r, m, n = op.divmodw(x, h, 1, 2);x = op.divw(x, h, q) + op.exp(r, m) + op.sqrt(n);return x
ok b = op.sha256(b) + op.sha512_256(b) + op.extract(b, 0, 1) + op.substring(b, 0, 1) + op.replace(b, 0, b"a") + op.setbyte(b, 0, 1);return x
ok x = op.btoi(b) + op.extract_uint16(b, 0) + op.extract_uint32(b, 0) + op.extract_uint64(b, 0) + op.getbyte(b, 0) + op.shl(x, 1) + op.shr(x, 1) + op.bitlen(b) + op.bitlen(x);return x
ok b = Txn.note + Txn.sender.bytes + Global.zero_address.bytes + Global.creator_address.bytes;x = Txn.on_completion + Txn.num_app_args + Global.round + Global.latest_timestamp;return x
ok x = OnCompleteAction.NoOp + OnCompleteAction.OptIn + OnCompleteAction.CloseOut + OnCompleteAction.ClearState + OnCompleteAction.UpdateApplication + OnCompleteAction.DeleteApplication;return x
ok c = x == 1 and x != 2 and x < 3 and x > 4 and x <= 5 and x >= 6 or not c;return x
ok c = b != b"a" and s != "a" and a != a and c != False;x = b.length + s.bytes.length + a.bytes.length;return x
ok "a";pass;("b");if c:;    pass;else:;    "c";return x
ok y: tuple[tuple[tuple[tuple[tuple[tuple[tuple[tuple[tuple[tuple[tuple[tuple[tuple[tuple[tuple[tuple[tuple[tuple[tuple[tuple[tuple[tuple[tuple[tuple[tuple[tuple[tuple[tuple[tuple[tuple[tuple[tuple[UInt64]]]]]]]]]]]]]]]]]]]]]]]]]]]]]]]];return x
ok y = ((((((((((((((((((((((((((((((((x,),),),),),),),),),),),),),),),),),),),),),),),),),),),),),),),);return x
P13 y = `(((((((((((((((((((((((((((((((((x,),),),),),),),),),),),),),),),),),),),),),),),),),),),),),),),),);return x
P08 y: op.`Scratch = x;return x
P13 y: `op.itob = x;return x
P13 y: `tuple[5] = x;return x
P13 y: `x = x;return x
P13 bool = x;y: `bool = c;return x
P09 log(c, `y);return x
P09 x = f(b, `y, c, s, a);return x
P14 b = (`5);return x
P09 `foo.x = x;return x
P09 x, b.`foo = x, x;return x
P14 t = (x, b);x = t[`-1];return x
ok t = (x, b);b = t[(1)];return x
P16 `(x, b) += 1;return x
P14 y: Bytes;x = `y;return x
P15 b = `UInt64(1, 2);return x
P16 y: UInt64;del `y;return x
ok (y): UInt64 = x;return y
P15 b = `Txn.application_args(x, x);return x
P15 b = `Bytes.from_hex("00", "00");return x
P15 c = `bool(1, 2);return x
P15 s = `String("a", 1);return x
P14 `[x, b] = x, b;return x
P09 x, (`y, z) = x, (x, x);return x
P15 x = `f(x, b, c, s, a, 1);return x
P15 x = `f(1);return x
P07 return `None
P16 del `(x);return x
P16 `(5) = x;return x
P09 y = `z;log = x;x = w;return x
"#;

/// What stands between the imports and a contract.
const LINES: &str = r#"P10 @subroutine;def f(a: UInt64, `a: UInt64) -> UInt64:;    return a
P10 @subroutine;def f() -> UInt64:;    return UInt64(1);@subroutine;def `f() -> UInt64:;    return UInt64(1)
P10 `op = 5
P10 @subroutine;def f(`log: UInt64) -> UInt64:;    return log
P13 @subroutine;def f(`x) -> UInt64:;    return UInt64(1)
P13 `@subroutine;def f(x: UInt64):;    return x
P13 @subroutine;def f(`self) -> UInt64:;    return UInt64(1)
ok @subroutine;def f(x: UInt64) -> tuple[UInt64, UInt64]:;    return 1, x
P14 @subroutine;def g() -> None:;    pass;@subroutine;def f() -> UInt64:;    y = `g();    return UInt64(1)
P14 @subroutine;def g() -> None:;    pass;@subroutine;def f() -> UInt64:;    return `g()
ok @subroutine;def g() -> None:;    return;@subroutine;def f() -> UInt64:;    g();    return UInt64(1)
P14 @subroutine;def g(x: UInt64) -> None:;    return `x
ok T = "no";@subroutine;def f(c: bool) -> bool:;    assert c, T;    return c
ok T = True;@subroutine;def f(x: UInt64) -> UInt64:;    while (T):;        y = x;        if y < 5:;            break;    return y
P18 @subroutine;def `f() -> UInt64:;    pass
P18 @subroutine;def `f(c: bool) -> UInt64:;    if c:;        return UInt64(1)
ok @subroutine;def f(c: bool) -> UInt64:;    while True:;        if c:;            return UInt64(1)
P18 @subroutine;def `f(c: bool) -> UInt64:;    while True:;        if c:;            break
ok @subroutine;def g(x: UInt64) -> None:;    x = x + 1
P18 @subroutine;def `f(x: UInt64) -> UInt64:;    x = x + y
P22 `def f() -> UInt64:;    return UInt64(1)
P22 @`log;def f() -> UInt64:;    return UInt64(1)
P22 @subroutine;@`subroutine;def f() -> UInt64:;    return UInt64(1)
P22 @`subroutine();def f() -> UInt64:;    return UInt64(1)
ok @subroutine;def f() -> UInt64:;    return g() + N;@subroutine;def g() -> UInt64:;    return UInt64(1);N = 5
P14 N = 5;@subroutine;def f(x: UInt64) -> UInt64:;    y = `N;    return x + N
P14 @subroutine;def f(x: UInt64) -> UInt64:;    y = `5;    return z;@subroutine;def g(log: UInt64) -> UInt64:;    pass
P10 @subroutine;def f(x: UInt64) -> UInt64:;    `log += 1;    return x
ok @subroutine;def f(self: UInt64) -> UInt64:;    return self + 1
ok tuple = 5;@subroutine;def f() -> UInt64:;    return tuple
P09 @`foo;def f() -> UInt64:;    return UInt64(1)
ok @subroutine;def f() -> UInt64:;    x, = (UInt64(1),);    return x
P14 @subroutine;def f() -> UInt64:;    x, = (True,);    return `x
P14 @subroutine;def f() -> UInt64:;    x, = `UInt64(1);    return x
P14 @subroutine;def f() -> UInt64:;    x, = `(UInt64(1), UInt64(2));    return x
ok @subroutine;def f(x: UInt64) -> tuple[UInt64]:;    y: tuple[UInt64] = x,;    y = (x,);    return x,
P14 @subroutine;def f(x: UInt64) -> tuple[UInt64]:;    return `x
P14 @subroutine;def f(x: UInt64) -> tuple[UInt64, Bytes]:;    return 1, `2
P14 @subroutine;def f(x: UInt64) -> tuple[UInt64, Bytes]:;    return `x, x
ok @subroutine;def f(c: bool) -> tuple[UInt64, Bytes]:;    return (1, b"a") if c else (2, (b"b"))
P14 @subroutine;def f(c: bool) -> bool:;    return c and `1
P14 @subroutine;def f(c: bool) -> bool:;    return `1
P14 @subroutine;def f(c: bool) -> None:;    return `c
P10 N = 5;`N = 6
P10 N = 5;@subroutine;def `N() -> UInt64:;    return UInt64(1)
P10 @subroutine;def f(x: UInt64) -> UInt64:;    `N = x;    return x;N = 5
P10 @subroutine;def f(x: UInt64) -> UInt64:;    `g = x;    return y;@subroutine;def g() -> UInt64:;    return z
P10 @subroutine;def f(`f: UInt64) -> UInt64:;    return y
P10 @subroutine;def f(a: UInt64, b: UInt64, `a: Bytes) -> UInt64:;    return y
P10 @subroutine;def f(`log: UInt64) -> UInt64:;    log = y;    return log
P09 @subroutine;def g() -> UInt64:;    return `y;@subroutine;def f(x: UInt64) -> UInt64:;    log = x;    return z
P10 @subroutine;def f() -> UInt64:;    return UInt64(1);@subroutine;def `f(x: Bytes) -> Bytes:;    return y
ok @subroutine;def bool(x: UInt64) -> UInt64:;    return x;@subroutine;def f() -> UInt64:;    return bool(5)
ok @subroutine;def f(tuple: UInt64, bool: UInt64) -> UInt64:;    return tuple + bool
ok @subroutine;def f(a: Account) -> Account:;    return a
P09 @subroutine;def f(x: `Foo) -> UInt64:;    return UInt64(1)
P09 @subroutine;def f(x: UInt64) -> tuple[UInt64, `Foo]:;    return y
P13 @subroutine;def f(x: `None) -> UInt64:;    return UInt64(1)
P13 @subroutine;def f(x: tuple[UInt64, `op]) -> UInt64:;    return UInt64(1)
P13 @subroutine;def f() -> `log:;    return UInt64(1)
P13 @subroutine;def f() -> tuple[`None]:;    return UInt64(1)
P13 `def f(x: UInt64):;    return x
P13 `@subroutine;@log;def f(x: UInt64):;    return y
P14 @subroutine;def g() -> None:;    pass;@subroutine;def f(x: UInt64) -> UInt64:;    y = (`g(), x);    return x
P14 @subroutine;def g() -> None:;    pass;@subroutine;def f(x: UInt64) -> UInt64:;    return x + `g()
P14 @subroutine;def g() -> None:;    pass;@subroutine;def f(x: UInt64) -> UInt64:;    return `g() + x
P14 @subroutine;def g() -> None:;    pass;@subroutine;def f(x: UInt64) -> UInt64:;    log(`g());    return x
P14 @subroutine;def g() -> None:;    pass;@subroutine;def f(x: UInt64) -> UInt64:;    return f(`g())
P14 @subroutine;def g() -> None:;    pass;@subroutine;def f(x: UInt64) -> UInt64:;    if `g():;        x = x;    return x
P14 @subroutine;def g() -> None:;    pass;@subroutine;def f(c: bool) -> UInt64:;    return `g() if c else 1
P14 @subroutine;def g() -> None:;    pass;@subroutine;def f() -> None:;    return `g()
P14 N = 5;@subroutine;def f(x: UInt64) -> UInt64:;    return `N(1)
P14 N = "a";@subroutine;def f(x: UInt64) -> UInt64:;    return x + `N
P14 N = 5;@subroutine;def f(x: UInt64) -> UInt64:;    log(`N);    return x
P14 N = 5;@subroutine;def f(x: UInt64) -> UInt64:;    if `N:;        x = x;    return x
P14 T = True;@subroutine;def f(x: UInt64) -> UInt64:;    return `T
P14 N = 5;@subroutine;def f(c: bool) -> bool:;    assert c, `N;    return c
ok N = 5;B = b"a";S = "a";T = False;@subroutine;def f(x: UInt64, b: Bytes, s: String, c: bool) -> UInt64:;    return x + N if b == B and s == S or c == T else N
ok N = 2;@subroutine;def f(b: Bytes) -> Bytes:;    t = (b, b, b);    for i in urange(1, N, N):;        b = b[N] + b[N:];    return t[N]
P16 N = 5;@subroutine;def f() -> UInt64:;    del `N;    return UInt64(1)
ok T = True;@subroutine;def f(x: UInt64) -> UInt64:;    if T:;        y = x;    return y
P17 T = False;@subroutine;def f(x: UInt64) -> UInt64:;    if T:;        x = x;    else:;        y = x;    return `y
P18 @subroutine;def `f() -> UInt64:;    assert False
ok @subroutine;def f() -> UInt64:;    if True:;        return UInt64(1)
ok T = True;@subroutine;def f() -> UInt64:;    while T:;        pass
P18 @subroutine;def `f() -> UInt64:;    while not False:;        pass
ok @subroutine;def f() -> UInt64:;    while True:;        pass
P18 @subroutine;def `f() -> UInt64:;    for i in urange(3):;        return i
ok @subroutine;def f(c: bool) -> UInt64:;    if c:;        return UInt64(1);    else:;        return UInt64(2)
P18 @subroutine;def `f(c: bool) -> UInt64:;    if c:;        return UInt64(1);    elif not c:;        return UInt64(2)
P18 @subroutine;def `f(x) -> UInt64:;    pass
P09 @subroutine;def f() -> `Foo:;    pass
P18 @subroutine;def `f(x: UInt64) -> UInt64:;    y = 5
P18 @subroutine;def `f(c: bool) -> UInt64:;    if c:;        y = UInt64(1);    z = y
P18 @subroutine;def `f(x: UInt64, x: UInt64) -> UInt64:;    pass
P18 @subroutine;def `f() -> UInt64:;    log = 5
P18 @subroutine;def `f() -> UInt64:;    pass;@subroutine;def g() -> UInt64:;    return y
P09 @subroutine;def g() -> UInt64:;    return `y;@subroutine;def f() -> UInt64:;    pass
P18 @subroutine;def `f() -> UInt64:;    x = UInt64(1);@subroutine;def g(log: UInt64) -> UInt64:;    pass
P22 `def f() -> UInt64:;    pass
ok @subroutine;def f() -> None:;    pass
ok @subroutine;def f(c: bool) -> None:;    if c:;        return
P19 @subroutine;def f() -> None:;    `break
P22 @`op.itob;def f() -> UInt64:;    return UInt64(1)
P22 @`UInt64(1);def f() -> UInt64:;    return UInt64(1)
P22 @`log;@subroutine;def f() -> UInt64:;    return y
P22 @`f;def f() -> UInt64:;    return UInt64(1)
P22 N = 5;@`N;def f() -> UInt64:;    return UInt64(1)
P22 @`C;def f() -> UInt64:;    return UInt64(1)
P08 @op.`sha3_256;def f() -> UInt64:;    return UInt64(1)
ok @subroutine;def f(x: UInt64) -> UInt64:;    return g(x);@subroutine;def g(x: UInt64) -> UInt64:;    return f(x)
P15 @subroutine;def f(x: UInt64) -> UInt64:;    return `f(x, g(y=1));@subroutine;def g(y: UInt64) -> UInt64:;    return y
P15 @subroutine;def f() -> UInt64:;    return `f(1)
P14 @subroutine;def f() -> UInt64:;    return `f
ok @subroutine;def f(x: UInt64) -> UInt64:;    self = x;    return self
ok @subroutine;def f(x: UInt64, b: Bytes) -> tuple[UInt64, Bytes]:;    x, b = f(b=b, x=x);    return f(x, b=b)
P14 @subroutine;def f(x: UInt64) -> tuple[UInt64, Bytes]:;    x, y = `f(x)[0];    return f(x)
P11 `import os;@subroutine;def f(x: UInt64) -> UInt64:;    return os.path + y
P11 `from algopy.op import itob;@subroutine;def f(x: UInt64) -> UInt64:;    return itob(5)
P14 @subroutine;def f(x: UInt64) -> UInt64:;    return `b"a";import os
P24 @subroutine;def `f(x: UInt64) -> UInt64:;    t = (x, x, x, x, x, x, x, x, x, x, x, x, x, x, x);    u = (t, t, t, t, t, t, t, t, t, t, t, t, t, t, t);    v = (u, u, u, u, u, u, u, u, u, u, u, u, u, u, u);    return x
P13 @subroutine;def f(x: UInt64) -> UInt64:;    t = (x, x, x, x, x, x, x, x, x, x, x, x, x, x, x);    u = (t, t, t, t, t, t, t, t, t, t, t, t, t, t, t);    v = (u, u, u, u, u, u, u, u, u, u, u, u, u, u, u);    w = `(v, v);    return x
P14 X = 5;@subroutine;def f(x: UInt64) -> UInt64:;    return `X.foo
P10 @subroutine;def f(`log) -> UInt64:;    return UInt64(1)
"#;

/// Whole sources.
const SOURCES: &str =
    r#"P08 from algopy import Contract, `BigUInt, UInt64;class C(Contract):;    def approval_program(self) -> UInt64:;        return UInt64(1);    def clear_state_program(self) -> UInt64:;        return UInt64(1)
P09 from algopy import Contract, UInt64, `Foo;class C(Contract):;    def approval_program(self) -> UInt64:;        return UInt64(1);    def clear_state_program(self) -> UInt64:;        return UInt64(1)
P09 from algopy import Account, Bytes, Contract, Global, OnCompleteAction, String, Txn, UInt64, log, op, subroutine, urange;class C(Contract):;    def approval_program(self) -> UInt64:;        return self.`clear_state_program();    def clear_state_program(self) -> UInt64:;        return UInt64(1)
P09 from algopy import Account, Bytes, Contract, Global, OnCompleteAction, String, Txn, UInt64, log, op, subroutine, urange;class C(Contract):;    def approval_program(self) -> UInt64:;        return self.`foo;    def clear_state_program(self) -> UInt64:;        return UInt64(1)
P10 from algopy import Account, Bytes, Contract, Global, OnCompleteAction, String, Txn, UInt64, log, op, subroutine, urange;class C(Contract):;    def approval_program(self) -> UInt64:;        return UInt64(1);    def clear_state_program(self) -> UInt64:;        return UInt64(1);    def `clear_state_program(self) -> UInt64:;        return UInt64(1)
P11 `import algopy;from algopy import Account, Bytes, Contract, Global, OnCompleteAction, String, Txn, UInt64, log, op, subroutine, urange;class C(Contract):;    def approval_program(self) -> UInt64:;        return UInt64(1);    def clear_state_program(self) -> UInt64:;        return UInt64(1)
P11 `from os import path;from algopy import Account, Bytes, Contract, Global, OnCompleteAction, String, Txn, UInt64, log, op, subroutine, urange;class C(Contract):;    def approval_program(self) -> UInt64:;        return UInt64(1);    def clear_state_program(self) -> UInt64:;        return UInt64(1)
ok import typing;from typing import Literal;from algopy import Account, Bytes, Contract, Global, OnCompleteAction, String, Txn, UInt64, log, op, subroutine, urange;class C(Contract):;    def approval_program(self) -> UInt64:;        return UInt64(1);    def clear_state_program(self) -> UInt64:;        return UInt64(1)
P12 `from algopy import UInt64, subroutine;@subroutine;def f() -> UInt64:;    return UInt64(1)
P12 from algopy import Account, Bytes, Contract, Global, OnCompleteAction, String, Txn, UInt64, log, op, subroutine, urange;class C(Contract):;    def approval_program(self) -> UInt64:;        return UInt64(1);    def clear_state_program(self) -> UInt64:;        return UInt64(1);class `T(UInt64):;    pass
P12 from algopy import Account, Bytes, Contract, Global, OnCompleteAction, String, Txn, UInt64, log, op, subroutine, urange;class `C(Contract):;    def approval_program(self) -> UInt64:;        return UInt64(1)
P12 from algopy import Account, Bytes, Contract, Global, OnCompleteAction, String, Txn, UInt64, log, op, subroutine, urange;class C(Contract):;    `def approval_program(self, x: UInt64) -> UInt64:;        return UInt64(1);    def clear_state_program(self) -> UInt64:;        return UInt64(1)
P12 from algopy import Account, Bytes, Contract, Global, OnCompleteAction, String, Txn, UInt64, log, op, subroutine, urange;class C(Contract):;    `def approval_program(self) -> Bytes:;        return b"a";    def clear_state_program(self) -> UInt64:;        return UInt64(1)
P12 from algopy import Account, Bytes, Contract, Global, OnCompleteAction, String, Txn, UInt64, log, op, subroutine, urange;class C(Contract):;    def approval_program(self) -> UInt64:;        return UInt64(1);    def clear_state_program(self) -> UInt64:;        return UInt64(1);    `x: UInt64
P12 from algopy import Account, Bytes, Contract, Global, OnCompleteAction, String, Txn, UInt64, log, op, subroutine, urange;class C(Contract):;    def approval_program(self) -> UInt64:;        return UInt64(1);    def clear_state_program(self) -> UInt64:;        return UInt64(1);    `@subroutine;    def f(x: UInt64) -> UInt64:;        return x
P16 from algopy import Account, Bytes, Contract, Global, OnCompleteAction, String, Txn, UInt64, log, op, subroutine, urange;class C(Contract):;    def approval_program(self) -> UInt64:;        `self = UInt64(1);        return UInt64(1);    def clear_state_program(self) -> UInt64:;        return UInt64(1)
P16 from algopy import Account, Bytes, Contract, Global, OnCompleteAction, String, Txn, UInt64, log, op, subroutine, urange;class C(Contract):;    def approval_program(self) -> UInt64:;        for `self in urange(3):;            pass;        return UInt64(1);    def clear_state_program(self) -> UInt64:;        return UInt64(1)
P22 from algopy import Account, Bytes, Contract, Global, OnCompleteAction, String, Txn, UInt64, log, op, subroutine, urange;class C(Contract):;    @`subroutine;    def approval_program(self) -> UInt64:;        return UInt64(1);    def clear_state_program(self) -> UInt64:;        return UInt64(1)
P22 from algopy import Account, Bytes, Contract, Global, OnCompleteAction, String, Txn, UInt64, log, op, subroutine, urange;class C(Contract):;    def approval_program(self) -> UInt64:;        return UInt64(1);    def clear_state_program(self) -> UInt64:;        return UInt64(1);    `def f(self) -> UInt64:;        return UInt64(1)
ok from algopy import Account, Bytes, Contract, Global, OnCompleteAction, String, Txn, UInt64, log, op, subroutine, urange;class C(Contract):;    def approval_program(self) -> UInt64:;        return self.f(1);    def clear_state_program(self) -> UInt64:;        return UInt64(1);    @subroutine;    def f(self, x: UInt64) -> UInt64:;        return self.f(x - 1) if x > 0 else x
ok from algopy import Account, Bytes, Contract, Global, OnCompleteAction, String, Txn, UInt64, log, op, subroutine, urange;class C(Contract):;    def approval_program(self) -> UInt64:;        return UInt64(1);    def clear_state_program(self) -> UInt64:;        return UInt64(1);class D(Contract):;    def approval_program(self) -> UInt64:;        return UInt64(1);    def clear_state_program(self) -> UInt64:;        return UInt64(1)
P12 from algopy import Account, Bytes, Contract, Global, OnCompleteAction, String, Txn, UInt64, log, op, subroutine, urange;class C(Contract):;    `def approval_program(self) -> String:;        return "a";    def clear_state_program(self) -> UInt64:;        return UInt64(1);class D(UInt64):;    pass
P16 from algopy import Account, Bytes, Contract, Global, OnCompleteAction, String, Txn, UInt64, log, op, subroutine, urange;class C(Contract):;    def approval_program(self) -> UInt64:;        `self.x: UInt64 = UInt64(1);        return UInt64(1);    def clear_state_program(self) -> UInt64:;        return UInt64(1)
P09 from algopy import Account, Bytes, Contract, Global, OnCompleteAction, String, Txn, UInt64, log, op, subroutine, urange;class C(Contract):;    def approval_program(self) -> UInt64:;        self.`z = UInt64(1);        return UInt64(1);    def clear_state_program(self) -> UInt64:;        return UInt64(1)
P15 from algopy import Account, Bytes, Contract, Global, OnCompleteAction, String, Txn, UInt64, log, op, subroutine, urange;class C(Contract):;    def approval_program(self) -> UInt64:;        return `self.f();    def clear_state_program(self) -> UInt64:;        return UInt64(1);    @subroutine;    def f(self, x: UInt64) -> UInt64:;        return x
P13 from typing import Literal;from algopy import Account, Bytes, Contract, Global, OnCompleteAction, String, Txn, UInt64, log, op, subroutine, urange;@subroutine;def f(x: `Literal[5]) -> UInt64:;    return UInt64(1);class C(Contract):;    def approval_program(self) -> UInt64:;        return UInt64(1);    def clear_state_program(self) -> UInt64:;        return UInt64(1)
P12 `
P12 `from algopy import UInt64;class T(UInt64):;    pass
P08 from algopy import `BigUInt;from algopy import Contract, UInt64;class C(Contract):;    def approval_program(self) -> UInt64:;        return UInt64(1);    def clear_state_program(self) -> UInt64:;        return UInt64(1)
P08 from algopy import `gtxn as g;import os;from algopy import Contract, UInt64;class C(Contract):;    def approval_program(self) -> UInt64:;        return UInt64(1);    def clear_state_program(self) -> UInt64:;        return UInt64(1)
P08 from algopy import UInt64, `itxn, Foo, Contract;class C(Contract):;    def approval_program(self) -> UInt64:;        return UInt64(1);    def clear_state_program(self) -> UInt64:;        return UInt64(1)
P08 from algopy import `Struct;from algopy import Contract, UInt64;class D(Struct):;    pass;class C(Contract):;    def approval_program(self) -> UInt64:;        return UInt64(1);    def clear_state_program(self) -> UInt64:;        return UInt64(1)
P09 from algopy import `foo as g;from algopy import Contract, UInt64;class C(Contract):;    def approval_program(self) -> UInt64:;        return UInt64(1);    def clear_state_program(self) -> UInt64:;        return UInt64(1)
P11 `import os;from algopy import Contract, UInt64;class C(Contract):;    def approval_program(self) -> UInt64:;        return UInt64(1);    def clear_state_program(self) -> UInt64:;        return UInt64(1)
P11 `import algopy as a;from algopy import Contract, UInt64;class C(Contract):;    def approval_program(self) -> UInt64:;        return UInt64(1);    def clear_state_program(self) -> UInt64:;        return UInt64(1)
P11 `import algopy.arc4;from algopy import Contract, UInt64;class C(Contract):;    def approval_program(self) -> UInt64:;        return UInt64(1);    def clear_state_program(self) -> UInt64:;        return UInt64(1)
P11 `from typing import List;from algopy import Contract, UInt64;class C(Contract):;    def approval_program(self) -> UInt64:;        return UInt64(1);    def clear_state_program(self) -> UInt64:;        return UInt64(1)
P11 `from typing import Literal, Final;from algopy import Contract, UInt64;class C(Contract):;    def approval_program(self) -> UInt64:;        return UInt64(1);    def clear_state_program(self) -> UInt64:;        return UInt64(1)
P11 `from algopy.op import itob;from algopy import Contract, UInt64;class C(Contract):;    def approval_program(self) -> UInt64:;        return UInt64(1);    def clear_state_program(self) -> UInt64:;        return UInt64(1)
P11 `import typing.x;from algopy import Contract, UInt64;class C(Contract):;    def approval_program(self) -> UInt64:;        return UInt64(1);    def clear_state_program(self) -> UInt64:;        return UInt64(1)
P11 from algopy import Contract, UInt64;class C(Contract):;    def approval_program(self) -> UInt64:;        return UInt64(1);    def clear_state_program(self) -> UInt64:;        return UInt64(1);`import sys
P14 from algopy import Contract, UInt64;class C(Contract):;    def approval_program(self) -> UInt64:;        return `b"a";    def clear_state_program(self) -> UInt64:;        return UInt64(1);import sys
ok import typing as t;from typing import Literal as L;from algopy import (Contract as K, UInt64 as U,);class C(K):;    def approval_program(self) -> U:;        return U(1);    def clear_state_program(self) -> U:;        return U(1)
P10 from algopy import Contract, UInt64, `UInt64;class C(Contract):;    def approval_program(self) -> UInt64:;        return UInt64(1);    def clear_state_program(self) -> UInt64:;        return UInt64(1)
P10 from algopy import Contract, UInt64;from algopy import `UInt64;class C(Contract):;    def approval_program(self) -> UInt64:;        return UInt64(1);    def clear_state_program(self) -> UInt64:;        return UInt64(1)
P10 from algopy import Contract, UInt64, op as `UInt64;class C(Contract):;    def approval_program(self) -> UInt64:;        return UInt64(1);    def clear_state_program(self) -> UInt64:;        return UInt64(1)
P10 from algopy import Contract, UInt64;import typing as `UInt64;class C(Contract):;    def approval_program(self) -> UInt64:;        return UInt64(1);    def clear_state_program(self) -> UInt64:;        return UInt64(1)
P10 from algopy import Contract, UInt64;`UInt64 = 5;class C(Contract):;    def approval_program(self) -> UInt64:;        return UInt64(1);    def clear_state_program(self) -> UInt64:;        return UInt64(1)
P10 from algopy import Contract, UInt64;class C(Contract):;    def approval_program(self) -> UInt64:;        return UInt64(1);    def clear_state_program(self) -> UInt64:;        return UInt64(1);class `C(Contract):;    def approval_program(self) -> UInt64:;        return UInt64(1);    def clear_state_program(self) -> UInt64:;        return UInt64(1)
P10 from algopy import Contract, UInt64;class C(Contract):;    def approval_program(self) -> UInt64:;        return UInt64(1);    def clear_state_program(self) -> UInt64:;        return UInt64(1);class `UInt64(Contract):;    def approval_program(self) -> UInt64:;        return UInt64(1);    def clear_state_program(self) -> UInt64:;        return UInt64(1)
P10 from algopy import Account, Bytes, Contract, Global, OnCompleteAction, String, Txn, UInt64, log, op, subroutine, urange;class C(Contract):;    def approval_program(self) -> UInt64:;        return UInt64(1);    def clear_state_program(self) -> UInt64:;        return UInt64(1);    @subroutine;    def f(self, `self: UInt64) -> UInt64:;        return y
P10 from algopy import Account, Bytes, Contract, Global, OnCompleteAction, String, Txn, UInt64, log, op, subroutine, urange;class C(Contract):;    def approval_program(self) -> UInt64:;        return UInt64(1);    def clear_state_program(self) -> UInt64:;        return UInt64(1);    @subroutine;    def f(self, `log: UInt64) -> UInt64:;        return log
P10 from algopy import Account, Bytes, Contract, Global, OnCompleteAction, String, Txn, UInt64, log, op, subroutine, urange;class C(Contract):;    def approval_program(self) -> UInt64:;        return UInt64(1);    def clear_state_program(self) -> UInt64:;        return UInt64(1);    @subroutine;    def f(self) -> UInt64:;        return UInt64(1);    @subroutine;    def `f(self) -> UInt64:;        return y
P10 from algopy import Account, Bytes, Contract, Global, OnCompleteAction, String, Txn, UInt64, log, op, subroutine, urange;class C(Contract):;    def approval_program(self) -> UInt64:;        y = UInt64(1);        `log = y;        return z;    def clear_state_program(self) -> UInt64:;        return UInt64(1)
ok from algopy import Account, Bytes, Contract, Global, OnCompleteAction, String, Txn, UInt64, log, op, subroutine, urange;class C(Contract):;    def approval_program(self) -> UInt64:;        return self.log(1);    def clear_state_program(self) -> UInt64:;        return UInt64(1);    @subroutine;    def log(self, x: UInt64) -> UInt64:;        log(x);        return x
P12 from algopy import Contract, UInt64;class `D(C):;    pass;class C(Contract):;    def approval_program(self) -> UInt64:;        return UInt64(1);    def clear_state_program(self) -> UInt64:;        return UInt64(1)
P12 from algopy import Account, Bytes, Contract, Global, OnCompleteAction, String, Txn, UInt64, log, op, subroutine, urange;class `D(op):;    pass;class C(Contract):;    def approval_program(self) -> UInt64:;        return UInt64(1);    def clear_state_program(self) -> UInt64:;        return UInt64(1)
P09 from algopy import Contract, UInt64;class D(`Foo):;    pass;class C(Contract):;    def approval_program(self) -> UInt64:;        return UInt64(1);    def clear_state_program(self) -> UInt64:;        return UInt64(1)
P09 from algopy import Contract, UInt64;class D(`algopy.Contract):;    pass;class C(Contract):;    def approval_program(self) -> UInt64:;        return UInt64(1);    def clear_state_program(self) -> UInt64:;        return UInt64(1)
P12 from algopy import Contract, UInt64;class `C(Contract):;    def clear_state_program(self) -> UInt64:;        return UInt64(1)
P12 from algopy import Contract, UInt64;class `C(Contract):;    pass
P12 from algopy import Contract, UInt64;class C(Contract):;    def approval_program(self) -> UInt64:;        return UInt64(1);    `def clear_state_program(self, x: UInt64) -> UInt64:;        return UInt64(1)
P12 from algopy import Contract, UInt64;class C(Contract):;    `def approval_program(self) -> None:;        pass;    def clear_state_program(self) -> UInt64:;        return UInt64(1)
P12 from algopy import Contract, UInt64;class C(Contract):;    `def approval_program(self) -> tuple[UInt64]:;        return UInt64(1),;    def clear_state_program(self) -> UInt64:;        return UInt64(1)
ok from algopy import Contract, UInt64;class C(Contract):;    def approval_program(self) -> bool:;        return True;    def clear_state_program(self) -> UInt64:;        return UInt64(1)
ok from algopy import Contract, UInt64;class C(Contract):;    "a";    pass;    def approval_program(self) -> UInt64:;        "b";        return UInt64(1);    def clear_state_program(self) -> UInt64:;        return UInt64(1)
P12 from algopy import Contract, UInt64;class C(Contract):;    def approval_program(self) -> UInt64:;        return UInt64(1);    def clear_state_program(self) -> UInt64:;        return UInt64(1);    `x: Foo
P12 from algopy import Contract, UInt64;class C(Contract):;    def approval_program(self) -> UInt64:;        return UInt64(1);    def clear_state_program(self) -> UInt64:;        return UInt64(1);    `def f() -> UInt64:;        return y
P12 from algopy import Account, Bytes, Contract, Global, OnCompleteAction, String, Txn, UInt64, log, op, subroutine, urange;class C(Contract):;    def approval_program(self) -> UInt64:;        return UInt64(1);    def clear_state_program(self) -> UInt64:;        return UInt64(1);    `@subroutine;    def f(x: UInt64, self) -> UInt64:;        return x
P12 from algopy import Account, Bytes, Contract, Global, OnCompleteAction, String, Txn, UInt64, log, op, subroutine, urange;class C(Contract):;    `@subroutine;    def approval_program(self, x: UInt64) -> UInt64:;        return UInt64(1);    def clear_state_program(self) -> UInt64:;        return UInt64(1)
P22 from algopy import Contract, UInt64;class C(Contract):;    @`UInt64;    def approval_program(self) -> UInt64:;        return y;    def clear_state_program(self) -> UInt64:;        return UInt64(1)
P22 from algopy import Account, Bytes, Contract, Global, OnCompleteAction, String, Txn, UInt64, log, op, subroutine, urange;class C(Contract):;    def approval_program(self) -> UInt64:;        return UInt64(1);    def clear_state_program(self) -> UInt64:;        return UInt64(1);    @`log;    def f(self) -> UInt64:;        return UInt64(1)
P22 from algopy import Account, Bytes, Contract, Global, OnCompleteAction, String, Txn, UInt64, log, op, subroutine, urange;class C(Contract):;    def approval_program(self) -> UInt64:;        return UInt64(1);    def clear_state_program(self) -> UInt64:;        return UInt64(1);    @subroutine;    @`subroutine;    def f(self) -> UInt64:;        return UInt64(1)
P22 from algopy import Account, Bytes, Contract, Global, OnCompleteAction, String, Txn, UInt64, log, op, subroutine, urange;class C(Contract):;    def approval_program(self) -> UInt64:;        return UInt64(1);    def clear_state_program(self) -> UInt64:;        return UInt64(1);    @`subroutine();    def f(self) -> UInt64:;        return UInt64(1)
P13 from algopy import Account, Bytes, Contract, Global, OnCompleteAction, String, Txn, UInt64, log, op, subroutine, urange;class C(Contract):;    def approval_program(self) -> UInt64:;        return UInt64(1);    def clear_state_program(self) -> UInt64:;        return UInt64(1);    @subroutine;    def f(self, `x) -> UInt64:;        return UInt64(1)
P13 from algopy import Account, Bytes, Contract, Global, OnCompleteAction, String, Txn, UInt64, log, op, subroutine, urange;class C(Contract):;    def approval_program(self) -> UInt64:;        return UInt64(1);    def clear_state_program(self) -> UInt64:;        return UInt64(1);    `@subroutine;    def f(self, x: UInt64):;        return x
P09 from algopy import Contract, UInt64;class C(Contract):;    def approval_program(self) -> UInt64:;        self.`z += UInt64(1);        return UInt64(1);    def clear_state_program(self) -> UInt64:;        return UInt64(1)
P09 from algopy import Contract, UInt64;class C(Contract):;    def approval_program(self) -> UInt64:;        return self.`z + 1;    def clear_state_program(self) -> UInt64:;        return UInt64(1)
P09 from algopy import Contract, UInt64;class C(Contract):;    def approval_program(self) -> UInt64:;        del self.`z;        return UInt64(1);    def clear_state_program(self) -> UInt64:;        return UInt64(1)
P09 from algopy import Contract, UInt64;class C(Contract):;    def approval_program(self) -> UInt64:;        x, self.`z = UInt64(1), UInt64(2);        return x;    def clear_state_program(self) -> UInt64:;        return UInt64(1)
P09 from algopy import Contract, UInt64;class C(Contract):;    def approval_program(self) -> UInt64:;        return self.`z(1);    def clear_state_program(self) -> UInt64:;        return UInt64(1)
P09 from algopy import Contract, UInt64;class C(Contract):;    def approval_program(self) -> UInt64:;        return self.`approval_program();    def clear_state_program(self) -> UInt64:;        return UInt64(1)
P16 from algopy import Contract, UInt64;class C(Contract):;    def approval_program(self) -> UInt64:;        x, `self = UInt64(1), UInt64(2);        return x;    def clear_state_program(self) -> UInt64:;        return UInt64(1)
P16 from algopy import Contract, UInt64;class C(Contract):;    def approval_program(self) -> UInt64:;        `self += 1;        return UInt64(1);    def clear_state_program(self) -> UInt64:;        return UInt64(1)
P16 from algopy import Contract, UInt64;class C(Contract):;    def approval_program(self) -> UInt64:;        `self: UInt64;        return UInt64(1);    def clear_state_program(self) -> UInt64:;        return UInt64(1)
P16 from algopy import Contract, UInt64;class C(Contract):;    def approval_program(self) -> UInt64:;        del `self;        return UInt64(1);    def clear_state_program(self) -> UInt64:;        return UInt64(1)
P15 from algopy import Account, Bytes, Contract, Global, OnCompleteAction, String, Txn, UInt64, log, op, subroutine, urange;class C(Contract):;    def approval_program(self) -> UInt64:;        return self.f(1, `x=1);    def clear_state_program(self) -> UInt64:;        return UInt64(1);    @subroutine;    def f(self, x: UInt64) -> UInt64:;        return x
P15 from algopy import Account, Bytes, Contract, Global, OnCompleteAction, String, Txn, UInt64, log, op, subroutine, urange;class C(Contract):;    def approval_program(self) -> UInt64:;        return `self.f(1, 2);    def clear_state_program(self) -> UInt64:;        return UInt64(1);    @subroutine;    def f(self, x: UInt64) -> UInt64:;        return x
P14 from algopy import Account, Bytes, Contract, Global, OnCompleteAction, String, Txn, UInt64, log, op, subroutine, urange;class C(Contract):;    def approval_program(self) -> UInt64:;        return self.f(`b"a");    def clear_state_program(self) -> UInt64:;        return UInt64(1);    @subroutine;    def f(self, x: UInt64) -> UInt64:;        return x
P14 from algopy import Account, Bytes, Contract, Global, OnCompleteAction, String, Txn, UInt64, log, op, subroutine, urange;class C(Contract):;    def approval_program(self) -> UInt64:;        return self.f(x=`True);    def clear_state_program(self) -> UInt64:;        return UInt64(1);    @subroutine;    def f(self, x: UInt64) -> UInt64:;        return x
P14 from algopy import Contract, UInt64;class C(Contract):;    def approval_program(self) -> UInt64:;        return `True;    def clear_state_program(self) -> UInt64:;        return UInt64(1)
P14 from algopy import Contract, UInt64;class C(Contract):;    def approval_program(self) -> bool:;        return `1;    def clear_state_program(self) -> UInt64:;        return UInt64(1)
P14 from algopy import Contract, UInt64;class C(Contract):;    def approval_program(self) -> UInt64:;        `return;    def clear_state_program(self) -> UInt64:;        return UInt64(1)
P18 from algopy import Contract, UInt64;class C(Contract):;    def `approval_program(self) -> UInt64:;        x = y;    def clear_state_program(self) -> UInt64:;        return UInt64(1)
P18 from algopy import Contract, UInt64;class C(Contract):;    def approval_program(self) -> UInt64:;        return UInt64(1);    def `clear_state_program(self) -> UInt64:;        pass;class D(UInt64):;    pass
P19 from algopy import Contract, UInt64;class C(Contract):;    def approval_program(self) -> UInt64:;        return UInt64(1);        `continue;    def clear_state_program(self) -> UInt64:;        return UInt64(1)
P18 from algopy import Account, Bytes, Contract, Global, OnCompleteAction, String, Txn, UInt64, log, op, subroutine, urange;class C(Contract):;    def approval_program(self) -> UInt64:;        return UInt64(1);    def clear_state_program(self) -> UInt64:;        return UInt64(1);    @subroutine;    def `f(self) -> UInt64:;        self = 5
P17 from algopy import Contract, UInt64;class C(Contract):;    def approval_program(self) -> UInt64:;        x: UInt64;        return `x;    def clear_state_program(self) -> UInt64:;        return UInt64(1)
ok from algopy import Contract, UInt64;class C(Contract):;    def approval_program(self) -> UInt64:;        x, = (UInt64(1),);        return x;    def clear_state_program(self) -> UInt64:;        return UInt64(1)
P10 from algopy import Contract, UInt64, subroutine;C = 5;class `C(Contract):;    def approval_program(self) -> UInt64:;        return UInt64(1);    def clear_state_program(self) -> UInt64:;        return UInt64(1)
P10 from algopy import Contract, UInt64, subroutine;@subroutine;def C() -> UInt64:;    return UInt64(1);class `C(Contract):;    def approval_program(self) -> UInt64:;        return UInt64(1);    def clear_state_program(self) -> UInt64:;        return UInt64(1)
P10 from algopy import Contract, UInt64;import typing;import `typing;class C(Contract):;    def approval_program(self) -> UInt64:;        return UInt64(1);    def clear_state_program(self) -> UInt64:;        return UInt64(1)
P22 from algopy import Contract, UInt64;class C(Contract):;    def approval_program(self) -> UInt64:;        return UInt64(1);    def clear_state_program(self) -> UInt64:;        return UInt64(1);    `def f(self) -> Foo:;        return UInt64(1)
P13 from algopy import Contract, UInt64;class C(Contract):;    def approval_program(self) -> UInt64:;        return UInt64(1);    def clear_state_program(self) -> UInt64:;        return UInt64(1);    `def f(self):;        return UInt64(1)
P14 from algopy import Contract, UInt64;class C(Contract):;    def approval_program(self) -> UInt64:;        y = `self;        return UInt64(1);    def clear_state_program(self) -> UInt64:;        return UInt64(1)
P14 from algopy import Account, Bytes, Contract, Global, OnCompleteAction, String, Txn, UInt64, log, op, subroutine, urange;class C(Contract):;    def approval_program(self) -> UInt64:;        y = `self.f;        return UInt64(1);    def clear_state_program(self) -> UInt64:;        return UInt64(1);    @subroutine;    def f(self, x: UInt64) -> UInt64:;        return x
P16 from algopy import Account, Bytes, Contract, Global, OnCompleteAction, String, Txn, UInt64, log, op, subroutine, urange;class C(Contract):;    def approval_program(self) -> UInt64:;        `self.f = UInt64(1);        return UInt64(1);    def clear_state_program(self) -> UInt64:;        return UInt64(1);    @subroutine;    def f(self, x: UInt64) -> UInt64:;        return x
P09 from algopy import BoxRef, Bytes, Contract, GlobalState, Txn, UInt64, log, op, subroutine, urange;class T(Contract):;    def approval_program(self) -> UInt64:;        return `y;    def clear_state_program(self) -> UInt64:;        return UInt64(1)
P14 from algopy import BoxRef, Bytes, Contract, GlobalState, Txn, UInt64, log, op, subroutine, urange;class T(Contract):;    def approval_program(self) -> UInt64:;        x = `5;        return UInt64(1);    def clear_state_program(self) -> UInt64:;        return UInt64(1)
P17 from algopy import BoxRef, Bytes, Contract, GlobalState, Txn, UInt64, log, op, subroutine, urange;class T(Contract):;    def approval_program(self) -> UInt64:;        if Txn.fee > 0: x = UInt64(1);        return `x;    def clear_state_program(self) -> UInt64:;        return UInt64(1)
P19 from algopy import BoxRef, Bytes, Contract, GlobalState, Txn, UInt64, log, op, subroutine, urange;class T(Contract):;    def approval_program(self) -> UInt64:;        `break;        return UInt64(1);    def clear_state_program(self) -> UInt64:;        return UInt64(1)
ok from algopy import BoxRef, Bytes, Contract, GlobalState, Txn, UInt64, log, op, subroutine, urange;class T(Contract):;    def approval_program(self) -> UInt64:;        x = UInt64(18446744073709551615) + 1;        return UInt64(1);    def clear_state_program(self) -> UInt64:;        return UInt64(1)
ok from algopy import BoxRef, Bytes, Contract, GlobalState, Txn, UInt64, log, op, subroutine, urange;class T(Contract):;    def approval_program(self) -> UInt64:;        return UInt64(0) ** UInt64(0);    def clear_state_program(self) -> UInt64:;        return UInt64(1)
ok from algopy import BoxRef, Bytes, Contract, GlobalState, Txn, UInt64, log, op, subroutine, urange;class T(Contract):;    def approval_program(self) -> UInt64:;        for i in urange(18446744073709551610, 18446744073709551615, 3): log(i);        return UInt64(1);    def clear_state_program(self) -> UInt64:;        return UInt64(1)
ok from algopy import BoxRef, Bytes, Contract, GlobalState, Txn, UInt64, log, op, subroutine, urange;class T(Contract):;    def approval_program(self) -> UInt64:;        a = UInt64(1);        b = UInt64(2);        for i in urange(5): a, b = b, a;        log(a, b);        return UInt64(1);    def clear_state_program(self) -> UInt64:;        return UInt64(1)
ok from algopy import BoxRef, Bytes, Contract, GlobalState, Txn, UInt64, log, op, subroutine, urange;class T(Contract):;    def approval_program(self) -> UInt64:;        x = UInt64(7);        y = Txn.num_app_args;        z = x // y;        return UInt64(1);    def clear_state_program(self) -> UInt64:;        return UInt64(1)
ok from algopy import BoxRef, Bytes, Contract, GlobalState, Txn, UInt64, log, op, subroutine, urange;class T(Contract):;    def approval_program(self) -> UInt64:;        while True: pass;    def clear_state_program(self) -> UInt64:;        return UInt64(1)
ok from algopy import BoxRef, Bytes, Contract, GlobalState, Txn, UInt64, log, op, subroutine, urange;@subroutine;def total(n: UInt64) -> UInt64:;    if n == 0: return UInt64(0);    return n + total(n - 1);class T(Contract):;    def approval_program(self) -> UInt64:;        return total(UInt64(2000));    def clear_state_program(self) -> UInt64:;        return UInt64(1)
ok from algopy import BoxRef, Bytes, Contract, GlobalState, Txn, UInt64, log, op, subroutine, urange;class T(Contract):;    def approval_program(self) -> UInt64:;        for i in urange(32): log(op.bzero(32));        return UInt64(1);    def clear_state_program(self) -> UInt64:;        return UInt64(1)
ok from algopy import BoxRef, Bytes, Contract, GlobalState, Txn, UInt64, log, op, subroutine, urange;@subroutine;def spin() -> None:;    while True: pass;class T(Contract):;    def approval_program(self) -> UInt64:;        spin();        return UInt64(1);    def clear_state_program(self) -> UInt64:;        return UInt64(1)
ok from algopy import BoxRef, Bytes, Contract, GlobalState, Txn, UInt64, log, op, subroutine, urange;class T(Contract):;    def approval_program(self) -> UInt64:;        x = UInt64(6) * 7;        y = op.bitlen(Txn.fee) ^ x;        return UInt64(1);    def clear_state_program(self) -> UInt64:;        return UInt64(1)
ok from algopy import BoxRef, Bytes, Contract, GlobalState, Txn, UInt64, log, op, subroutine, urange;class T(Contract):;    def approval_program(self) -> UInt64:;        x = Txn.fee;        y = x;        log(y);        return UInt64(1);    def clear_state_program(self) -> UInt64:;        return UInt64(1)
ok from algopy import BoxRef, Bytes, Contract, GlobalState, Txn, UInt64, log, op, subroutine, urange;class T(Contract):;    def approval_program(self) -> UInt64:;        log(UInt64(1));        log(UInt64(2));        return UInt64(1);    def clear_state_program(self) -> UInt64:;        return UInt64(1)
ok from algopy import BoxRef, Bytes, Contract, GlobalState, Txn, UInt64, log, op, subroutine, urange;class T(Contract):;    def approval_program(self) -> UInt64:;        return UInt64(6) * UInt64(7);    def clear_state_program(self) -> UInt64:;        return UInt64(1)
ok from algopy import BoxRef, Bytes, Contract, GlobalState, Txn, UInt64, log, op, subroutine, urange;class T(Contract):;    def approval_program(self) -> UInt64:;        log(Bytes(b"a"));        log(Bytes(b"b"));        return UInt64(1);    def clear_state_program(self) -> UInt64:;        return UInt64(1)
"#;

/// As LINES; `~` stands for 98 parameters, `a0` the first.
const WIDE: &str = r#"P24 @subroutine;def `f(~, y: UInt64, z: UInt64) -> UInt64:;    return y
ok @subroutine;def f(~, y: UInt64) -> UInt64:;    return y
P14 @subroutine;def f(~, y: UInt64, z: UInt64) -> UInt64:;    return `b"a"
P24 @subroutine;def `f(~) -> UInt64:;    for i in urange(3):;        a0 = i;    return a0
P24 @subroutine;def `f(~, y: UInt64) -> UInt64:;    z: UInt64;    return y
P24 @subroutine;def `f(~, y: UInt64, z: UInt64) -> UInt64:;    return a0
ok @subroutine;def f(~, y: UInt64) -> UInt64:;    return a0
P24 @subroutine;def `f(~, y: UInt64, z: UInt64) -> UInt64:;    return a0;@subroutine;def g() -> UInt64:;    return y
P24 @subroutine;def `f(~, y: UInt64, z: UInt64) -> UInt64:;    return a0;@subroutine;def g() -> UInt64:;    pass
P09 @subroutine;def g() -> UInt64:;    return `y;@subroutine;def f(~, y: UInt64, z: UInt64) -> UInt64:;    return a0
P14 @subroutine;def g() -> UInt64:;    return `b"a";@subroutine;def f(~, y: UInt64, z: UInt64) -> UInt64:;    return a0
P18 @subroutine;def `g() -> UInt64:;    pass;@subroutine;def f(~, y: UInt64, z: UInt64) -> UInt64:;    return a0
P24 @subroutine;def `f(~, y: UInt64, z: UInt64) -> UInt64:;    return a0;@subroutine;def g(~, y: UInt64, z: UInt64) -> UInt64:;    return a0
P18 @subroutine;def `f(~, y: UInt64, z: UInt64) -> UInt64:;    pass
P24 @subroutine;def `f(~, y: UInt64) -> UInt64:;    w: UInt64;    return w
P09 @subroutine;def f(~, y: UInt64, z: UInt64) -> UInt64:;    return `w
P24 @subroutine;def `f(~, y: tuple[UInt64, UInt64]) -> UInt64:;    return a0
P24 @subroutine;def `f(~, y: UInt64) -> tuple[UInt64, UInt64]:;    return a0, a1
ok @subroutine;def f(~) -> tuple[UInt64, UInt64]:;    return a0, a1
P24 @subroutine;def `f(~) -> UInt64:;    for i in urange(3):;        pass;    return a0
P24 @subroutine;def `f(~, y: UInt64, z: UInt64) -> UInt64:;    break;    return a0
P24 @subroutine;def `f(~, y: UInt64, z: UInt64, y: UInt64) -> UInt64:;    return a0
P13 @subroutine;def f(~, y: UInt64, `z) -> UInt64:;    return a0
"#;

const IMPORTS: &str =
    "from algopy import Account, Bytes, Contract, Global, OnCompleteAction, String, Txn, UInt64, log, op, subroutine, urange;";

const HEAD: &str =
    "@subroutine;def f(x: UInt64, b: Bytes, c: bool, s: String, a: Account) -> UInt64:;    ";

const CONTRACT: &str =
    "class C(Contract):;    def approval_program(self) -> UInt64:;        return UInt64(1);    def clear_state_program(self) -> UInt64:;        return UInt64(1)";

/// The source of a row, and the place that it marks.
fn read(alloc: Global, row: &str) -> Result<(Blob, Place), Memory> {
    let mut source = Blob::new(alloc);
    let mut here = Place { line: 1, col: 1 };
    let mut marked = NOWHERE;
    for byte in row.as_bytes() {
        if *byte == b'`' {
            marked = here;
        } else if *byte == b';' {
            source.push(b'\n')?;
            here = Place {
                line: here.line.saturating_add(1),
                col: 1,
            };
        } else {
            source.push(*byte)?;
            here.col = here.col.saturating_add(1);
        }
    }
    Ok((source, marked))
}

/// What is answered, as a row says it, and where.
fn answer(alloc: Global, source: &[u8]) -> Result<(String, Place), Fail>
    requires { length source.now ≤ 1048576 }
{
    match compile(alloc, source, Level::L0) {
        Ok(_) => Ok((String::from_str(alloc, "built")?, NOWHERE)),
        Err(CompileFault::NotBuilt) => Ok((String::from_str(alloc, "ok")?, NOWHERE)),
        Err(CompileFault::Refused(refusal)) => {
            let rule = refusal.rule;
            Ok((format!(in alloc; "{rule:?}")?, refusal.place))
        }
        Err(CompileFault::Memory) => Ok((String::from_str(alloc, "memory")?, NOWHERE)),
    }
}

fn check(rt: &impl Abort, alloc: Global, rule: &str, row: &str) -> Result<(), Fail> {
    let (source, marked) = read(alloc, row)?;
    assert!(rt; source.len() <= 1_048_576);
    let (said, place) = answer(alloc, source.as_slice())?;
    assert_eq!(rt; said.as_str(), rule, "{row}");
    assert_eq!(rt; (place.line, place.col), (marked.line, marked.col), "{row}");
    Ok(())
}

#[test]
fn bodies(rt: HostRuntime) -> Result<(), Fail> {
    let alloc = rt.alloc();
    for row in BODIES.lines() {
        if let Some((rule, body)) = row.split_once(' ') {
            let body = body.replace(alloc, ";", ";    ")?;
            let source = format!(in alloc; "{IMPORTS}{HEAD}{body};{CONTRACT}")?;
            check(&rt, alloc, rule, source.as_str())?;
        }
    }
    Ok(())
}

/// A row of what stands between the imports and a contract.
fn check_lines(rt: &impl Abort, alloc: Global, row: &str) -> Result<(), Fail> {
    if let Some((rule, lines)) = row.split_once(' ') {
        let source = format!(in alloc; "{IMPORTS}{lines};{CONTRACT}")?;
        check(rt, alloc, rule, source.as_str())?;
    }
    Ok(())
}

#[test]
fn lines(rt: HostRuntime) -> Result<(), Fail> {
    for row in LINES.lines() {
        check_lines(&rt, rt.alloc(), row)?;
    }
    Ok(())
}

fn parameters(alloc: Global) -> Result<String, Memory> {
    let mut all = String::from_str(alloc, "a0: UInt64")?;
    for i in 1..98 {
        all.push_str(format!(in alloc; ", a{i}: UInt64")?.as_str())?;
    }
    Ok(all)
}

#[test]
fn many_parameters(rt: HostRuntime) -> Result<(), Fail> {
    let alloc = rt.alloc();
    let all = parameters(alloc)?;
    for row in WIDE.lines() {
        check_lines(&rt, alloc, row.replace(alloc, "~", all.as_str())?.as_str())?;
    }
    Ok(())
}

fn long_text(alloc: Global, length: u32) -> Result<String, Memory> {
    let mut text = String::new(alloc);
    for _ in 0..length {
        text.push('a')?;
    }
    Ok(text)
}

/// Lines with literals of 4096 bytes, for which `~` stands, and of one more.
const LONG: &str = r#"ok B = b"~"
P14 B = `b"~a"
ok @subroutine;def f(c: bool) -> bool:;    assert c, "~";    return c
P14 @subroutine;def f(c: bool) -> bool:;    assert c, `"~a";    return c
P14 @subroutine;def f(c: bool) -> bool:;    `"~a";    return c
P14 @subroutine;def f(c: bool) -> bool:;    x = String(`"~" "a");    return d"#;

#[test]
fn long_literals(rt: HostRuntime) -> Result<(), Fail> {
    let alloc = rt.alloc();
    let all = long_text(alloc, 4096)?;
    for row in LONG.lines() {
        check_lines(&rt, alloc, row.replace(alloc, "~", all.as_str())?.as_str())?;
    }
    Ok(())
}

#[test]
fn sources(rt: HostRuntime) -> Result<(), Fail> {
    for row in SOURCES.lines() {
        if let Some((rule, source)) = row.split_once(' ') {
            check(&rt, rt.alloc(), rule, source)?;
        }
    }
    Ok(())
}
