//! Texts of expressions and functions, and what each gives: the words, the text, and the last part of the line of its load.
//! The values follow from the sections of ES3 that are named, and most were tried by another engine too.

/// Operands: literals, names, arrays, records, functions, `this` (ES3 11.1, 13).
pub static OPERANDS: &str = "
run ⇒ this; ⇒ return record ?
run ⇒ null; ⇒ return null
run ⇒ true; ⇒ return true
run ⇒ false; ⇒ return false
run ⇒ 0x10; ⇒ return 16
run ⇒ 9007199254740991; ⇒ return 9007199254740991
run ⇒ 'a\\x41\\u0042\\n'; ⇒ return \"aAB\\n\"
run ⇒ \"it's <b>\"; ⇒ return \"it's \\x3Cb\\x3E\"
run ⇒ var x = 1; x; ⇒ return 1
run ⇒ ((7)); ⇒ return 7
run ⇒ []; ⇒ return array ?
run ⇒ [1, [2, 3],].length; ⇒ return 2
run ⇒ [1, 2, 3][1]; ⇒ return 2
run ⇒ ({}); ⇒ return record ?
run ⇒ ({a: 1, 'b c': 2, 3: 4})['b c']; ⇒ return 2
run ⇒ ({a: 1, 'b c': 2, 3: 4})[3]; ⇒ return 4
run ⇒ ({0x10: 1})['16']; ⇒ return 1
run ⇒ ({a: 1, a: 2}).a; ⇒ return 2
run ⇒ (function () {}); ⇒ return function ?
run ⇒ (function f(a, b) {}).length; ⇒ return 2
run ⇒ function f() {} f; ⇒ return function ?
run ⇒ var g = function f() { return f; }; g() === g; ⇒ return true
run ⇒ var g = function f() {}; f; ⇒ throw error ? TypeError \"unbound\"
run ⇒ typeof Object; ⇒ return \"function\"
run ⇒ typeof Absent; ⇒ return \"undefined\"
";

/// Members of objects and of values that are none (11.2.1, 8.6.2, 15.4.5.1, 15.5.5.1).
pub static MEMBERS: &str = "
run ⇒ var o = {a: {b: 1}}; o.a.b; ⇒ return 1
run ⇒ var o = {a: 1}, k = 'a'; o[k]; ⇒ return 1
run ⇒ ({}).a; ⇒ return undefined
run ⇒ ({}).toString; ⇒ return function ?
run ⇒ ({}).absent; ⇒ return undefined
run ⇒ 'abc'.length; ⇒ return 3
run ⇒ 'abc'['length']; ⇒ return 3
run ⇒ 'abc'[0]; ⇒ return undefined
run ⇒ (5).a; ⇒ return undefined
run ⇒ true.a; ⇒ return undefined
run ⇒ undefined.a; ⇒ throw error ? TypeError \"no object\"
run ⇒ null['a']; ⇒ throw error ? TypeError \"no object\"
run ⇒ var o = {}; o[null] = 1; o['null']; ⇒ return 1
run ⇒ var o = {}; o[{}] = 1; o['[object Object]']; ⇒ return 1
run ⇒ var o = {}; o[[1, 2]] = 3; o['1,2']; ⇒ return 3
run ⇒ var o = {}; o[-1] = 'a'; o['-1']; ⇒ return \"a\"
run ⇒ var a = [1]; a[3] = 2; a.length; ⇒ return 4
run ⇒ var a = []; a['01'] = 2; a.length; ⇒ return 0
run ⇒ var a = [1, 2]; a.length = 0; a.length; ⇒ return 2
run ⇒ var a = [1, 2]; delete a[1]; a.length; ⇒ return 2
run ⇒ var t = 'abc'; t.a = 1; t.a; ⇒ return undefined
run ⇒ var t = 'abc'; t.length = 1; t.length; ⇒ return 3
run ⇒ var n = 1; n.a = 2; ⇒ return 2
run ⇒ function f(a, b) {} f.length = 5; f.length; ⇒ return 2
run ⇒ function f() {} f.a = 1; f.a; ⇒ return 1
";

/// Calls, their arguments and receivers (11.2.3, 11.2.4, 10.2.3).
pub static CALLS: &str = "
run ⇒ (function () { return 7; })(); ⇒ return 7
run ⇒ (function () {})(); ⇒ return undefined
run ⇒ (function () { return; })(); ⇒ return undefined
run ⇒ (function () { 5; })(); ⇒ return undefined
run ⇒ (function (a, b) { return b; })(1); ⇒ return undefined
run ⇒ (function (a, b) { return a - b; })(5, 3, 1); ⇒ return 2
run ⇒ function f() { return this; } f() === this; ⇒ return true
run ⇒ var o = {f: function () { return this; }}; o.f() === o; ⇒ return true
run ⇒ var o = {f: function () { return this; }}; o['f']() === o; ⇒ return true
run ⇒ var o = {f: function () { return this; }}; (0, o.f)() === this; ⇒ return true
run ⇒ var o = {f: function () { return (function () { return this; })() === this; }}; o.f(); ⇒ return false
run ⇒ var x = 1; (function () { return this.x; })(); ⇒ return 1
run ⇒ function f() { this.x = 1; } f(); x; ⇒ return 1
run ⇒ (function () { return typeof this; })(); ⇒ return \"object\"
run ⇒ 1(); ⇒ throw error ? TypeError \"not a function\"
run ⇒ ({}).f(); ⇒ throw error ? TypeError \"not a function\"
run ⇒ undefined(); ⇒ throw error ? TypeError \"not a function\"
run ⇒ 'abc'.f(); ⇒ throw error ? TypeError \"not a function\"
run ⇒ undefined.f(); ⇒ throw error ? TypeError \"no object\"
run ⇒ f(); ⇒ throw error ? TypeError \"unbound\"
run ⇒ var f = 1; f(x); ⇒ throw error ? TypeError \"unbound\"
";

/// What `new` makes, and of what (11.2.2, 13.2.2).
pub static NEW: &str = "
run ⇒ function F(a) { this.a = a; } new F(3).a; ⇒ return 3
run ⇒ function F() { this.a = 1; } new F; ⇒ return record ?
run ⇒ function F() { this.a = 1; } (new F).a; ⇒ return 1
run ⇒ function F() { return {a: 2}; } new F().a; ⇒ return 2
run ⇒ function F() { this.a = 1; return 2; } new F().a; ⇒ return 1
run ⇒ function F() { this.a = 1; return null; } new F().a; ⇒ return 1
run ⇒ function F() { return F; } new F() === F; ⇒ return true
run ⇒ function F() { return [1]; } new F(); ⇒ return array ?
run ⇒ function F() { throw 1; } new F(); ⇒ throw 1
run ⇒ var o = {F: function (a) { this.a = a; }}; new o.F(4).a; ⇒ return 4
run ⇒ function F() { return function () { this.a = 5; }; } new (F())().a; ⇒ return 5
run ⇒ function F() { return function () { this.a = 5; }; } new new F()().a; ⇒ return 5
run ⇒ new function () { this.a = arguments.length; }(7, 8).a; ⇒ return 2
run ⇒ new 1; ⇒ throw error ? TypeError \"not a constructor\"
run ⇒ new {}; ⇒ throw error ? TypeError \"not a constructor\"
run ⇒ new undefined(1); ⇒ throw error ? TypeError \"not a constructor\"
run ⇒ new x; ⇒ throw error ? TypeError \"unbound\"
run ⇒ new 1(x); ⇒ throw error ? TypeError \"unbound\"
";

/// Prototypes of what functions make, and `instanceof` (8.6.2, 11.8.6, 13.2, 15.3.5).
pub static PROTOTYPES: &str = "
run ⇒ function F() {} F.prototype.constructor === F; ⇒ return true
run ⇒ function F() {} new F().constructor === F; ⇒ return true
run ⇒ function F() {} F.prototype.a = 1; new F().a; ⇒ return 1
run ⇒ function F() {} F.prototype.a = 1; var o = new F(); o.a = 2; F.prototype.a; ⇒ return 1
run ⇒ function F() {} F.prototype.a = 1; var o = new F(); o.a = 2; delete o.a; o.a; ⇒ return 1
run ⇒ function F() {} F.prototype.a = 1; var o = new F(); delete o.a; o.a; ⇒ return 1
run ⇒ function F() {} var o = new F(); F.prototype.a = 1; o.a; ⇒ return 1
run ⇒ function F() {} var o = new F(); F.prototype = {a: 1}; o.a; ⇒ return undefined
run ⇒ function F() {} F.prototype = {a: 1}; new F().a; ⇒ return 1
run ⇒ function F() {} F.prototype = 5; new F(); ⇒ return record ?
run ⇒ function F() {} F.prototype.f = function () { return this.a; }; var o = new F(); o.a = 3; o.f(); ⇒ return 3
run ⇒ function A() { this.a = 1; } function B() {} B.prototype = new A(); new B().a; ⇒ return 1
run ⇒ function A() {} function B() {} B.prototype = new A(); new B() instanceof A; ⇒ return true
run ⇒ function A() {} function B() {} B.prototype = new A(); new B().constructor === A; ⇒ return true
run ⇒ function F() {} new F() instanceof F; ⇒ return true
run ⇒ function F() {} ({}) instanceof F; ⇒ return false
run ⇒ function F() {} 1 instanceof F; ⇒ return false
run ⇒ function F() {} var o = new F(); F.prototype = {}; o instanceof F; ⇒ return false
run ⇒ function F() {} F.prototype = null; 1 instanceof F; ⇒ return false
run ⇒ function F() {} F.prototype = null; ({}) instanceof F; ⇒ throw error ? TypeError \"no object\"
run ⇒ ({}) instanceof {}; ⇒ throw error ? TypeError \"not a function\"
run ⇒ 1 instanceof 2; ⇒ throw error ? TypeError \"not a function\"
run ⇒ function F() {} delete F.prototype; ⇒ return false
run ⇒ function F() {} delete F.prototype.constructor; ⇒ return true
";

/// Operators before an operand: `delete`, `void`, `typeof`, signs, `~`, `!` (11.4).
pub static PREFIX: &str = "
run ⇒ delete 1; ⇒ return true
run ⇒ var o = {a: 1}; delete o.a; ⇒ return true
run ⇒ var o = {a: 1}; delete o.a; o.a; ⇒ return undefined
run ⇒ delete ({})['b']; ⇒ return true
run ⇒ delete [].length; ⇒ return false
run ⇒ delete 'abc'.length; ⇒ return false
run ⇒ delete (5).a; ⇒ return true
run ⇒ delete undefined.a; ⇒ throw error ? TypeError \"no object\"
run ⇒ delete (function () { throw 3; })(); ⇒ throw 3
run ⇒ void 1; ⇒ return undefined
run ⇒ [typeof undefined, typeof null, typeof true, typeof 1, typeof 'a', typeof {}, typeof [], typeof function () {}] + ''; ⇒ return \"undefined,object,boolean,number,string,object,object,function\"
run ⇒ typeof x; ⇒ return \"undefined\"
run ⇒ typeof x.y; ⇒ throw error ? TypeError \"unbound\"
run ⇒ typeof ({}).y; ⇒ return \"undefined\"
run ⇒ +'12'; ⇒ return 12
run ⇒ +true; ⇒ return 1
run ⇒ -'3'; ⇒ return -3
run ⇒ -0; ⇒ return 0
run ⇒ ~5; ⇒ return -6
run ⇒ ~4294967295; ⇒ return 0
run ⇒ !0; ⇒ return true
run ⇒ !'0'; ⇒ return false
run ⇒ ![]; ⇒ return false
run ⇒ !undefined; ⇒ return true
";

/// `++` and `--`, before and behind (11.3, 11.4.4, 11.4.5).
pub static STEPPED: &str = "
run ⇒ var x = 1; x++; ⇒ return 1
run ⇒ var x = 1; x++; x; ⇒ return 2
run ⇒ var x = 1; ++x; ⇒ return 2
run ⇒ var x = 1; x--; ⇒ return 1
run ⇒ var x = 1; --x; ⇒ return 0
run ⇒ var x = '5'; x++ + x; ⇒ return 11
run ⇒ var o = {a: 1}; ++o['a']; ⇒ return 2
run ⇒ var o = {a: 1}; o.a--; o.a; ⇒ return 0
run ⇒ var a = [7]; a[0]++ + a[0]; ⇒ return 15
run ⇒ var x = null; x++; ⇒ return 0
run ⇒ var x = true; --x; ⇒ return 0
run ⇒ var x = 1; x++ + ++x; ⇒ return 4
run ⇒ var x = 1; - -x; ⇒ return 1
run ⇒ x++; ⇒ throw error ? TypeError \"unbound\"
run ⇒ undefined.a++; ⇒ throw error ? TypeError \"no object\"
";

/// Operators on numbers (11.5 to 11.7, 11.10).
pub static NUMBERS: &str = "
run ⇒ 6 * 7; ⇒ return 42
run ⇒ -6 / 3; ⇒ return -2
run ⇒ 7 % 3; ⇒ return 1
run ⇒ -7 % 3; ⇒ return -1
run ⇒ 7 % -3; ⇒ return 1
run ⇒ 1 + 2; ⇒ return 3
run ⇒ 1 - 2 - 3; ⇒ return -4
run ⇒ 1 + 2 * 3; ⇒ return 7
run ⇒ 1 << 31; ⇒ return -2147483648
run ⇒ 1 << 33; ⇒ return 2
run ⇒ -1 >> 1; ⇒ return -1
run ⇒ -1 >>> 0; ⇒ return 4294967295
run ⇒ -1 >>> 28; ⇒ return 15
run ⇒ 4294967295 | 0; ⇒ return -1
run ⇒ 6 & 3; ⇒ return 2
run ⇒ 6 | 3; ⇒ return 7
run ⇒ 6 ^ 3; ⇒ return 5
run ⇒ '7' - '2'; ⇒ return 5
run ⇒ '0x1F' * 1; ⇒ return 31
run ⇒ ' -12 ' * 1; ⇒ return -12
run ⇒ '' * 1; ⇒ return 0
run ⇒ null + 1; ⇒ return 1
run ⇒ true + true; ⇒ return 2
run ⇒ [5] * '2'; ⇒ return 10
run ⇒ -9007199254740991 + 9007199254740991; ⇒ return 0
";

/// `<` and its kin, and `in` (11.8).
pub static RELATIONS: &str = "
run ⇒ 1 < 2; ⇒ return true
run ⇒ 2 > 2; ⇒ return false
run ⇒ 2 >= 2; ⇒ return true
run ⇒ 3 <= 2; ⇒ return false
run ⇒ 'a' < 'b'; ⇒ return true
run ⇒ 'B' > 'a'; ⇒ return false
run ⇒ 'a' < 'ab'; ⇒ return true
run ⇒ '10' < '9'; ⇒ return true
run ⇒ '10' < 9; ⇒ return false
run ⇒ null < true; ⇒ return true
run ⇒ [2] > 1; ⇒ return true
run ⇒ ({}) < 'a'; ⇒ return true
run ⇒ 1 < 2 < 3; ⇒ return true
run ⇒ 3 > 2 > 1; ⇒ return false
run ⇒ 'a' in {a: 1}; ⇒ return true
run ⇒ 'b' in {a: 1}; ⇒ return false
run ⇒ 'a' in {a: undefined}; ⇒ return true
run ⇒ 1 in [5, 6]; ⇒ return true
run ⇒ 2 in [5, 6]; ⇒ return false
run ⇒ 'length' in []; ⇒ return true
run ⇒ 'toString' in {}; ⇒ return true
run ⇒ 'absent' in {}; ⇒ return false
run ⇒ function F() {} 'constructor' in new F(); ⇒ return true
run ⇒ 'a' in 1; ⇒ throw error ? TypeError \"no object\"
run ⇒ 'length' in 'abc'; ⇒ throw error ? TypeError \"no object\"
";

/// `==`, `!=`, `===`, `!==` (11.9).
pub static EQUALITIES: &str = "
run ⇒ 1 == '1'; ⇒ return true
run ⇒ 1 === '1'; ⇒ return false
run ⇒ 1 !== '1'; ⇒ return true
run ⇒ 1 != 2; ⇒ return true
run ⇒ null == undefined; ⇒ return true
run ⇒ null != undefined; ⇒ return false
run ⇒ null === undefined; ⇒ return false
run ⇒ null == 0; ⇒ return false
run ⇒ undefined == 0; ⇒ return false
run ⇒ '' == 0; ⇒ return true
run ⇒ true == '1'; ⇒ return true
run ⇒ false == ''; ⇒ return true
run ⇒ [1] == 1; ⇒ return true
run ⇒ [1, 2] == '1,2'; ⇒ return true
run ⇒ ({}) == '[object Object]'; ⇒ return true
run ⇒ ({}) == ({}); ⇒ return false
run ⇒ ({}) == null; ⇒ return false
run ⇒ var o = {}, p = o; o == p; ⇒ return true
run ⇒ 'a' === 'a'; ⇒ return true
run ⇒ 'a' == 'A'; ⇒ return false
run ⇒ undefined === void 0; ⇒ return true
run ⇒ -0 === 0; ⇒ return true
";

/// `&&`, `||`, `?:`, the comma (11.11, 11.12, 11.14).
pub static CHOICES: &str = "
run ⇒ 1 && 0; ⇒ return 0
run ⇒ 0 && x; ⇒ return 0
run ⇒ 'a' || x; ⇒ return \"a\"
run ⇒ 0 || null; ⇒ return null
run ⇒ '' || 'b' && 'c'; ⇒ return \"c\"
run ⇒ true ? 1 : x; ⇒ return 1
run ⇒ 0 ? x : 2; ⇒ return 2
run ⇒ 0 ? 1 : 0 ? 2 : 3; ⇒ return 3
run ⇒ [] ? 'a' : 'b'; ⇒ return \"a\"
run ⇒ 1, 2; ⇒ return 2
run ⇒ (1, 2) + (3, 4); ⇒ return 6
run ⇒ 1 && x; ⇒ throw error ? TypeError \"unbound\"
";

/// `=` and each `op=` (11.13).
pub static ASSIGNMENTS: &str = "
run ⇒ var x; x = 5; ⇒ return 5
run ⇒ var x, y; x = y = 3; x + y; ⇒ return 6
run ⇒ x = 1; x; ⇒ return 1
run ⇒ var x = 6; x *= 7; ⇒ return 42
run ⇒ var x = 6; x /= 3; ⇒ return 2
run ⇒ var x = 7; x %= 4; ⇒ return 3
run ⇒ var x = 7; x += 4; ⇒ return 11
run ⇒ var x = 7; x -= 4; ⇒ return 3
run ⇒ var x = 7; x <<= 4; ⇒ return 112
run ⇒ var x = -7; x >>= 1; ⇒ return -4
run ⇒ var x = -7; x >>>= 28; ⇒ return 15
run ⇒ var x = 7; x &= 12; ⇒ return 4
run ⇒ var x = 7; x ^= 12; ⇒ return 11
run ⇒ var x = 7; x |= 12; ⇒ return 15
run ⇒ var x = 'a'; x += 1; x; ⇒ return \"a1\"
run ⇒ var o = {a: 1}; o.a += 2; o.a; ⇒ return 3
run ⇒ var o = {a: 1}; o['a'] <<= 3; o.a; ⇒ return 8
run ⇒ var o = {}; o.a = o.b = 4; o.a + o.b; ⇒ return 8
run ⇒ x += 1; ⇒ throw error ? TypeError \"unbound\"
run ⇒ undefined.a = 1; ⇒ throw error ? TypeError \"no object\"
run ⇒ x = x; ⇒ throw error ? TypeError \"unbound\"
";

/// Texts of values, and what is compared without one (9.8, 11.6.1, 15.2.4.2, 15.3.4.2, 15.4.4.2).
pub static CONVERSIONS: &str = "
run ⇒ 1 + 'a'; ⇒ return \"1a\"
run ⇒ 'a' + -1 + null + undefined + true; ⇒ return \"a-1nullundefinedtrue\"
run ⇒ 1 + 2 + 'a' + 1 + 2; ⇒ return \"3a12\"
run ⇒ '' + {}; ⇒ return \"[object Object]\"
run ⇒ ({}) + 1; ⇒ return \"[object Object]1\"
run ⇒ '' + function f() {}; ⇒ return \"[object Function]\"
run ⇒ [1, 'a', null, undefined, true] + ''; ⇒ return \"1,a,,,true\"
run ⇒ [1, [2, [3, []]], {}] + ''; ⇒ return \"1,2,3,,[object Object]\"
run ⇒ [[], []] + ''; ⇒ return \",\"
run ⇒ [] + []; ⇒ return \"\"
run ⇒ [1] + [2]; ⇒ return \"12\"
run ⇒ var a = []; a[2] = 1; '' + a; ⇒ return \",,1\"
run ⇒ try { x; } catch (e) { '' + e; } ⇒ return \"[object Object]\"
run ⇒ +[]; ⇒ return 0
run ⇒ +['7']; ⇒ return 7
run ⇒ var a = []; for (var i = 0; i < 31; i++) a = [a]; '' + a; ⇒ return \"\"
run ⇒ ({toString: 1}) == null; ⇒ return false
run ⇒ ({toString: 1}) == {valueOf: 1}; ⇒ return false
run ⇒ ({toString: 1}) === ''; ⇒ return false
run ⇒ !{toString: 1}; ⇒ return false
run ⇒ typeof {toString: 1}; ⇒ return \"object\"
run ⇒ ({toString: 1}).toString; ⇒ return 1
";

/// What is evaluated, looked up and converted before what (8.7, 11.2, 11.13).
pub static ORDER: &str = "
run ⇒ var s = ''; function f(x) { s += x; return 1; } f('a') + f('b') * f('c'); s; ⇒ return \"abc\"
run ⇒ var s = ''; function f(x) { s += x; return 1; } f('a') > f('b'); s; ⇒ return \"ab\"
run ⇒ var s = ''; function f(x) { s += x; return {}; } f('a')[f('b')] = f('c'); s; ⇒ return \"abc\"
run ⇒ var s = ''; function g() {} function f(x) { s += x; return g; } f('a')(f('b'), f('c')); s; ⇒ return \"abc\"
run ⇒ var s = ''; function f(x) { s += x; return 1; } ({a: f('a'), b: [f('b'), f('c')]}); s; ⇒ return \"abc\"
run ⇒ var x = 1; x + (x = 5) + x; ⇒ return 11
run ⇒ var i = 0; i = i++ + i; ⇒ return 1
run ⇒ var i = 0, a = [0, 0]; a[i] = i = 1; a + ''; ⇒ return \"1,0\"
run ⇒ var x = 1; x += (x = 5, 2); ⇒ return 3
run ⇒ var o = {a: 1}; o.a += (o.a = 5, 2); ⇒ return 3
run ⇒ var f = function () { return 1; }; function g() { f = function () { return 2; }; } f(g()); ⇒ return 2
run ⇒ var o = {f: function () { return 1; }}; o.f(o.f = function () { return 2; }); ⇒ return 2
run ⇒ var o = {f: function () { return this.a; }, a: 1}, p = o; o.f(o = {a: 2}); ⇒ return 1
run ⇒ f(f = function () { return 3; }); ⇒ throw error ? TypeError \"unbound\"
run ⇒ var F = function () { this.a = 1; }; new F(F = 0).a; ⇒ return 1
run ⇒ var s = 0; function f() { s = 1; } try { undefined.x = f(); } catch (e) {} s; ⇒ return 0
run ⇒ var s = 0; try { undefined.f(s = 1); } catch (e) {} s; ⇒ return 0
run ⇒ var s = 0; try { undefined[s = 1]; } catch (e) {} s; ⇒ return 1
run ⇒ undefined[{toString: 1}]; ⇒ throw error ? TypeError \"no object\"
run ⇒ var s = 0; try { f(s = 1); } catch (e) {} s; ⇒ return 1
run ⇒ ({toString: 1}) in 1; ⇒ throw error ? TypeError \"no object\"
run ⇒ x = (function () { x = 1; return 2; })(); x; ⇒ return 2
run ⇒ var o = {x: 1}; with (o) x = (delete o.x, 2); o.x; ⇒ return 2
run ⇒ var s = '', o = {a: s += 'a', b: s += 'b'}; o.b; ⇒ return \"ab\"
";

/// Names of the global object and of scopes: read, written and deleted (10.1.4, 10.2.1, 11.4.1).
pub static NAMES: &str = "
run ⇒ this.undefined; ⇒ return undefined
run ⇒ x = 1; this.x; ⇒ return 1
run ⇒ this.x = 1; x; ⇒ return 1
run ⇒ x = 1; delete x; ⇒ return true
run ⇒ x = 1; delete x; typeof x; ⇒ return \"undefined\"
run ⇒ this.x = 1; delete x; ⇒ return true
run ⇒ delete x; ⇒ return true
run ⇒ var x = 1; delete x; ⇒ return false
run ⇒ var x = 1; delete this.x; ⇒ return false
run ⇒ function f() {} delete f; ⇒ return false
run ⇒ delete undefined; ⇒ return false
run ⇒ undefined = 1; undefined; ⇒ return 1
run ⇒ var undefined = 2; undefined; ⇒ return 2
run ⇒ function undefined() {} typeof undefined; ⇒ return \"function\"
run ⇒ function f() { x = 3; } f(); x; ⇒ return 3
run ⇒ var x = 1; function f() { var x = 3; } f(); x; ⇒ return 1
run ⇒ var x = 1; function f() { return x; } function g() { var x = 2; return f(); } g(); ⇒ return 1
run ⇒ (function () { var x; return delete x; })(); ⇒ return false
run ⇒ (function (a) { return delete a; })(1); ⇒ return false
run ⇒ arguments; ⇒ throw error ? TypeError \"unbound\"
run ⇒ var x; 'x' in this; ⇒ return true
run ⇒ 'x' in this; ⇒ return false
run ⇒ 'constructor' in this; ⇒ return false
run ⇒ var s = '', x; function f() {} for (var k in this) s += k + ' '; s; ⇒ return \"f s x k \"
";

/// Functions, their scopes and their own names (10.1, 13).
pub static FUNCTIONS: &str = "
run ⇒ function f(n) { return n < 2 ? 1 : n * f(n - 1); } f(10); ⇒ return 3628800
run ⇒ var c = (function () { var n = 0; return function () { return ++n; }; })(); c(); c(); ⇒ return 2
run ⇒ function f() { var n = 0; return function () { return n++; }; } var a = f(), b = f(); a(); a(); b(); ⇒ return 0
run ⇒ function f(g) { return g(2); } f(function (n) { return n + 1; }); ⇒ return 3
run ⇒ var a = []; for (var i = 0; i < 3; i++) a[i] = function () { return i; }; a[0](); ⇒ return 3
run ⇒ var a = []; for (var i = 0; i < 3; i++) a[i] = (function (j) { return function () { return j; }; })(i); a[1](); ⇒ return 1
run ⇒ function f() { return function () {}; } f() === f(); ⇒ return false
run ⇒ function f(a) { return function (b) { return function (c) { return a + b + c; }; }; } f('x')('y')('z'); ⇒ return \"xyz\"
run ⇒ (function f() { f = 1; return typeof f; })(); ⇒ return \"function\"
run ⇒ (function f() { f += 1; return typeof f; })(); ⇒ return \"function\"
run ⇒ (function f() { return delete f; })(); ⇒ return false
run ⇒ (function f() { var f = 1; return f; })(); ⇒ return 1
run ⇒ (function f(f) { return f; })(2); ⇒ return 2
run ⇒ (function f() { function f() { return 1; } return f(); })(); ⇒ return 1
run ⇒ var f = 1; (function f() { f = 2; })(); f; ⇒ return 1
run ⇒ var g = function f(n) { return n ? f(n - 1) : 'end'; }; g(3); ⇒ return \"end\"
run ⇒ var g = function f() {}; typeof f; ⇒ return \"undefined\"
run ⇒ (function f() { return f === arguments.callee; })(); ⇒ return true
run ⇒ function f() { return f; } var g = f; f = 1; g(); ⇒ return 1
run ⇒ function f(n) { return n === 0 ? 0 : f(n - 1); } f(999); ⇒ return 0
run ⇒ function F(n) { if (n > 1) new F(n - 1); } new F(1000); ⇒ return record ?
run ⇒ function f() { try { f(); } catch (e) { return 1; } } 2; ⇒ return 2
";

/// What a body declares: functions, parameters, variables (10.1.3).
pub static HOISTING: &str = "
run ⇒ var x = f(); function f() { return 1; } x; ⇒ return 1
run ⇒ var t = typeof x, x = 1; t; ⇒ return \"undefined\"
run ⇒ var f = 1; function f() {} typeof f; ⇒ return \"number\"
run ⇒ var f; function f() {} typeof f; ⇒ return \"function\"
run ⇒ function f() { return 1; } function f() { return 2; } f(); ⇒ return 2
run ⇒ function f() { return 1; } var x = f(); function f() { return 2; } x; ⇒ return 2
run ⇒ var x = 1; var x; x; ⇒ return 1
run ⇒ var x = 1, x = 2; x; ⇒ return 2
run ⇒ function f(a) { var a; return a; } f(1); ⇒ return 1
run ⇒ function f(a) { var a = 2; return a; } f(1); ⇒ return 2
run ⇒ function f(a) { function a() {} return typeof a; } f(1); ⇒ return \"function\"
run ⇒ function f(a) { var a; function a() {} return typeof a; } f(1); ⇒ return \"function\"
run ⇒ function f() { return typeof a; var a = 1; function a() {} } f(); ⇒ return \"function\"
run ⇒ function f(a, a) { return a; } f(1, 2); ⇒ return 2
run ⇒ function f(a, a) { return a; } f(1); ⇒ return undefined
run ⇒ function f() { if (0) { var x = 1; } return x; } f(); ⇒ return undefined
run ⇒ x = 2; function f() { x = 3; var x; } f(); x; ⇒ return 2
run ⇒ function f() { g(); function g() { h = 5; } } f(); h; ⇒ return 5
run ⇒ function f() { return g(); } function g() { return 1; } f(); ⇒ return 1
run ⇒ (function () { x = 1; for (;;) while (1) do with ({}) switch (0) { default: a: if (0) ; else { var x; return; } } while (0); })(); typeof x; ⇒ return \"undefined\"
run ⇒ (function () { x = y = z = 1; try { var x; } catch (e) { var y; } finally { for (var z in {}) ; } })(); typeof x + typeof y + typeof z; ⇒ return \"undefinedundefinedundefined\"
run ⇒ (function () { x = 1; if (0) for (var x; ; ) ; })(); typeof x; ⇒ return \"undefined\"
run ⇒ for (var i; 0; ) ; i; ⇒ return undefined
run ⇒ try {} catch (e) { var x = 1; } x; ⇒ return undefined
";

/// The arguments object: its items, its length and its callee (10.1.8).
pub static ARGUMENTS: &str = "
run ⇒ function f() { return arguments.length; } f(1, 2, 3); ⇒ return 3
run ⇒ function f(a, b) { return arguments.length; } f(1); ⇒ return 1
run ⇒ function f() { return arguments[1]; } f('a', 'b'); ⇒ return \"b\"
run ⇒ function f() { return arguments[2]; } f('a', 'b'); ⇒ return undefined
run ⇒ function f() { return arguments.callee; } f() === f; ⇒ return true
run ⇒ (function (n) { return n ? n + arguments.callee(n - 1) : 0; })(4); ⇒ return 10
run ⇒ function f() { return arguments === arguments; } f(); ⇒ return true
run ⇒ function f() { return arguments; } f() === f(); ⇒ return false
run ⇒ function f() { return arguments; } f(4)[0]; ⇒ return 4
run ⇒ function f() { return typeof arguments + arguments; } f(); ⇒ return \"object[object Object]\"
run ⇒ function f() { var s = ''; for (var k in arguments) s += k; return s; } f(1, 2); ⇒ return \"\"
run ⇒ function f() { arguments.length = 7; return arguments.length; } f(1); ⇒ return 7
run ⇒ function f() { arguments[2] = 5; return arguments.length; } f(1); ⇒ return 1
run ⇒ function f() { return delete arguments.length; } f(1); ⇒ return true
run ⇒ function f() { return delete arguments; } f(); ⇒ return false
run ⇒ function f() { arguments = 5; return arguments; } f(); ⇒ return 5
run ⇒ function f(arguments) { return arguments; } f(6); ⇒ return 6
run ⇒ function f() { var arguments; return typeof arguments; } f(); ⇒ return \"object\"
run ⇒ function f() { var arguments = 7; return arguments; } f(); ⇒ return 7
run ⇒ function f() { function arguments() {} return typeof arguments; } f(); ⇒ return \"function\"
run ⇒ function f(a) { var g = function () { return arguments[0]; }; return g(9); } f(1); ⇒ return 9
run ⇒ function F() { this.n = arguments.length; } new F(1, 2).n; ⇒ return 2
";

/// Items of an arguments object that have the values of parameters (10.1.8).
pub static SHARED_ARGUMENTS: &str = "
run ⇒ function f(a) { arguments[0] = 2; return a; } f(1); ⇒ return 2
run ⇒ function f(a) { a = 2; return arguments[0]; } f(1); ⇒ return 2
run ⇒ function f(a) { var g = arguments; a = 3; return g[0]; } f(1); ⇒ return 3
run ⇒ function f(a, b) { b = 2; return arguments[1]; } f(1); ⇒ return undefined
run ⇒ function f(a, b) { arguments[1] = 2; return b; } f(1); ⇒ return undefined
run ⇒ function f(a) { delete arguments[0]; arguments[0] = 2; return a; } f(1); ⇒ return 1
run ⇒ function f(a) { delete arguments[0]; a = 2; return arguments[0]; } f(1); ⇒ return undefined
run ⇒ function f(a, b) { delete arguments[0]; arguments[1] = 5; return a + b; } f(1, 2); ⇒ return 6
run ⇒ function f(a) { arguments[0]++; return a; } f(1); ⇒ return 2
run ⇒ function f(a) { a++; return arguments[0]; } f(1); ⇒ return 2
run ⇒ function f(a) { var a = 4; return arguments[0]; } f(1); ⇒ return 4
run ⇒ function f(a) { function a() {} return typeof arguments[0]; } f(1); ⇒ return \"function\"
run ⇒ function f(a, a) { return arguments[0]; } f(1, 2); ⇒ return 1
run ⇒ function f(a, a) { return arguments[0]; } f(1); ⇒ return 1
run ⇒ function f(a, a) { a = 7; return arguments[0] + ' ' + arguments[1]; } f(1, 2); ⇒ return \"1 7\"
run ⇒ function f(a, a) { arguments[0] = 5; return a; } f(1, 2); ⇒ return 2
run ⇒ function f(a, a) { arguments[1] = 5; return a; } f(1, 2); ⇒ return 5
run ⇒ function f(a, b, a) { a = 7; return arguments[0] + ' ' + arguments[1] + ' ' + arguments[2]; } f(1, 2, 3); ⇒ return \"1 2 7\"
run ⇒ function f(a) { (function () { a = 2; })(); return arguments[0]; } f(1); ⇒ return 2
run ⇒ function f(a) { for (a in {x: 1}) ; return arguments[0]; } f(1); ⇒ return \"x\"
run ⇒ function f(a) { for (arguments[0] in {x: 1}) ; return a; } f(1); ⇒ return \"x\"
run ⇒ function f(a) { with (arguments) length = 9; return arguments.length; } f(1); ⇒ return 9
run ⇒ function f(a) { try { throw 2; } catch (a) { a = 5; arguments[0] = 3; } return a; } f(1); ⇒ return 3
run ⇒ function f(a) { g(arguments); return a; } function g(b) { b[0] = 8; } f(1); ⇒ return 8
run ⇒ var h; function f(a) { h = arguments; return function () { return a; }; } var g = f(1); h[0] = 8; g(); ⇒ return 8
run ⇒ var h; function f(a) { h = arguments; return function () { a = 9; }; } f(1)(); h[0]; ⇒ return 9
run ⇒ function f(a, n) { if (n) { f(2, 0); } return arguments[0] + a; } f(1, 1); ⇒ return 2
run ⇒ function f() { return arguments(arguments = function () { return 1; }); } f(); ⇒ return 1
run ⇒ function f(a) { var g; try { arguments(g = arguments); } catch (e) {} return g === arguments; } f(); ⇒ return true
";
