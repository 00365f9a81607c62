//! Sources of every form, each with its printed text, and sources that are refused, each with its line.

use caja_cli::Status;
use caja_units::Memory;
use command_runs::runs::{check_refusals, is_line, refuses, run};
use std::alloc::Global;
use std::test::Fail;

/// Tokens, with a space where two would run together.
static SPACED: &str = "
a - (b - c); x = - -1; if (a < !b) c; else \"</p>\"; ⇒ a-(b-c);x=- -1;if(a< !b)c;else\"\\x3C/p\\x3E\";
 ⇒ 
;;; ⇒ ;;;
/* a */ b; // c ⇒ b;
/* a */ // \u{E9} \u{1F600} ⇒ 
/* </script> */ ((((a)))); ⇒ a;
a+ +b; a- -b; a+ ++b; ⇒ a+ +b;a- -b;a+ ++b;
a-- - --b; ⇒ a-- - --b;
a + -b; a - +b; a - ++b; a + --b; ⇒ a+-b;a-+b;a-++b;a+--b;
a++ + b; a-- - b; a++ - b; a-- + b; ⇒ a++ +b;a-- -b;a++-b;a--+b;
a<!b; a << !b; a <= !b; a > !b; ⇒ a< !b;a<< !b;a<=!b;a>!b;
a<!--b; ⇒ a< !--b;
a[0]>b; ⇒ a[0] >b;
a[0] >= b; a[0] >> b; a[0] >>> b; a[0] < b; ⇒ a[0] >=b;a[0] >>b;a[0] >>>b;a[0]<b;
a[0] >>= b; a[0] >>>= b; a[0] = b; a[0] /= b; ⇒ a[0] >>=b;a[0] >>>=b;a[0]=b;a[0]/=b;
[[]] > a; a() > b; (a[0], b) > c; a-- > b; ⇒ [[]] >a;a()>b;(a[0],b)>c;a-->b;
x = - -1; + +a; - -a; + -a; - +a; + ++a; - --a; - ++a; + --a; ⇒ x=- -1;+ +a;- -a;+-a;-+a;+ ++a;- --a;-++a;+--a;
! !a; ~ ~a; ! ~a; ~ -a; ⇒ !!a;~~a;!~a;~-a;
typeof a; typeof (a); typeof \"a\"; typeof -a; typeof typeof a; ⇒ typeof a;typeof a;typeof\"a\";typeof-a;typeof typeof a;
void 0; void $; void {}; delete a.b; delete (a[b]); ⇒ void 0;void $;void{};delete a.b;delete a[b];
a in b; \"x\" in o; 1 in a; (1) in (a); ⇒ a in b;\"x\"in o;1 in a;1 in a;
a in []; a[0] in b; a() in \"b\"; a++ in --b; ⇒ a in[];a[0]in b;a()in\"b\";a++in--b;
a instanceof b; this instanceof null; a instanceof (b, c); ⇒ a instanceof b;this instanceof null;a instanceof(b,c);
a * b; a / b; a % b; a + b; a - b; a << b; a >> b; a >>> b; ⇒ a*b;a/b;a%b;a+b;a-b;a<<b;a>>b;a>>>b;
a < b; a > b; a <= b; a >= b; a == b; a != b; a === b; a !== b; ⇒ a<b;a>b;a<=b;a>=b;a==b;a!=b;a===b;a!==b;
a & b; a ^ b; a | b; a && b; a || b; a, b; ⇒ a&b;a^b;a|b;a&&b;a||b;a,b;
1 + +2; 1 - -2; 1 / \"2\"; \"1\" % 2; ⇒ 1+ +2;1- -2;1/\"2\";\"1\"%2;
a = b; a *= b; a /= b; a %= b; a += b; a -= b; ⇒ a=b;a*=b;a/=b;a%=b;a+=b;a-=b;
a <<= b; a >>= b; a >>>= b; a &= b; a ^= b; a |= b; ⇒ a<<=b;a>>=b;a>>>=b;a&=b;a^=b;a|=b;
a = !b; a = -b; a += +b; a -= --b; a <<= !b; ⇒ a=!b;a=-b;a+=+b;a-=--b;a<<=!b;
";

/// Parts of expressions, in parentheses where their places ask for them.
static ENCLOSED: &str = "
(a, b) + c; a + (b, c); ⇒ (a,b)+c;a+(b,c);
(a = b) + c; a + (b = c); (a ? b : c) + d; a + (b ? c : d); ⇒ (a=b)+c;a+(b=c);(a?b:c)+d;a+(b?c:d);
(a || b) || c; a || (b || c); ⇒ a||b||c;a||(b||c);
(a || b) && c; (a && b) || c; a || (b && c); a && (b || c); a && (b && c); ⇒ (a||b)&&c;a&&b||c;a||b&&c;a&&(b||c);a&&(b&&c);
(a && b) | c; (a | b) && c; a | (b && c); a && (b | c); ⇒ (a&&b)|c;a|b&&c;a|(b&&c);a&&b|c;
(a | b) ^ c; (a ^ b) | c; a ^ (b | c); a | (b ^ c); a | (b | c); ⇒ (a|b)^c;a^b|c;a^(b|c);a|b^c;a|(b|c);
(a ^ b) & c; (a & b) ^ c; a & (b ^ c); a ^ (b & c); a ^ (b ^ c); ⇒ (a^b)&c;a&b^c;a&(b^c);a^b&c;a^(b^c);
(a & b) == c; (a == b) & c; a == (b & c); a & (b == c); a & (b & c); ⇒ (a&b)==c;a==b&c;a==(b&c);a&b==c;a&(b&c);
(a == b) < c; (a < b) == c; a < (b == c); a == (b < c); a != (b === c); (a != b) === c; ⇒ (a==b)<c;a<b==c;a<(b==c);a==b<c;a!=(b===c);a!=b===c;
(a < b) << c; (a << b) < c; a << (b < c); a < (b << c); a > (b <= c); (a > b) <= c; ⇒ (a<b)<<c;a<<b<c;a<<(b<c);a<b<<c;a>(b<=c);a>b<=c;
(a in b) in c; a in (b in c); a instanceof (b in c); (a in b) + c; a in (b + c); ⇒ a in b in c;a in(b in c);a instanceof(b in c);(a in b)+c;a in b+c;
(a << b) + c; (a + b) << c; a + (b << c); a << (b + c); a >> (b >>> c); ⇒ (a<<b)+c;a+b<<c;a+(b<<c);a<<b+c;a>>(b>>>c);
a * (b + c); (a * b) + c; (a + b) * c; a + (b * c); ⇒ a*(b+c);a*b+c;(a+b)*c;a+b*c;
a - (b - c); (a - b) - c; a + (b + c); (a + b) + c; ⇒ a-(b-c);a-b-c;a+(b+c);a+b+c;
a * (b / c); (a * b) / c; a % (b % c); a / (b * c); ⇒ a*(b/c);a*b/c;a%(b%c);a/(b*c);
!(a + b); (!a) + b; -(a * b); (-a) * b; a * (-b); ⇒ !(a+b);!a+b;-(a*b);-a*b;a*-b;
-(-a); -(--a); +(-a); typeof (!a); ⇒ - -a;- --a;+-a;typeof!a;
!(a, b); !(a = b); !(a ? b : c); void (a, b); ⇒ !(a,b);!(a=b);!(a?b:c);void(a,b);
-(a++); (-a).b; (a++).b; (++a)[b]; (a--)(); ⇒ -a++;(-a).b;(a++).b;(++a)[b];(a--)();
(a.b)++; --(a.b); ++(a[b]); (a)--; ⇒ a.b++;--a.b;++a[b];a--;
++(a, b).c; (a + b)[c]--; (a().b)++; ⇒ ++(a,b).c;(a+b)[c]--;a().b++;
(a ? b : c) ? d : e; ⇒ (a?b:c)?d:e;
a ? b : c ? d : e; a ? b : (c ? d : e); a ? (b ? c : d) : e; ⇒ a?b:c?d:e;a?b:c?d:e;a?b?c:d:e;
a ? (b, c) : d; a ? b : (c, d); ⇒ a?(b,c):d;a?b:(c,d);
(a = b) ? c : d; (a, b) ? c : d; (a || b) ? c : d; ⇒ (a=b)?c:d;(a,b)?c:d;a||b?c:d;
a ? b = c : d = e; a ? (b = c) : (d = e); ⇒ a?b=c:d=e;a?b=c:d=e;
a = b = c; a = (b = c); a = (b ? c : d); a = (b || c); ⇒ a=b=c;a=b=c;a=b?c:d;a=b||c;
a = (b, c); (a.b) = c; (a) += b; (a[b]) = c; ⇒ a=(b,c);a.b=c;a+=b;a[b]=c;
(a, b).c = d; (a = b).c = d; a().b = c; (new a).b = c; ⇒ (a,b).c=d;(a=b).c=d;a().b=c;new a().b=c;
a, b, c; (a, b), c; a, (b, c); a, (b = c); (a = b), c; ⇒ a,b,c;a,b,c;a,(b,c);a,b=c;a=b,c;
f((a, b)); f(a, b); f((a, b), c); f(); f((a)); ⇒ f((a,b));f(a,b);f((a,b),c);f();f(a);
f(a = b, c ? d : e); f((a = b), !c); ⇒ f(a=b,c?d:e);f(a=b,!c);
[(a, b), c]; [(a = b), (c)]; [a, b,]; []; ⇒ [(a,b),c];[a=b,c];[a,b];[];
({x: (a, b)}); ({x: (a = b)}); ⇒ ({\"x\":(a,b)});({\"x\":a=b});
var a = (b, c); ⇒ var a=(b,c);
var a, b = 1, c; var d = (e = f), g = (h ? i : j); ⇒ var a,b=1,c;var d=e=f,g=h?i:j;
(a, b).c; (a, b)[c]; (a, b)(c); ⇒ (a,b).c;(a,b)[c];(a,b)(c);
(a + b)(c); (a = b)(); (a ? b : c)[d]; (a || b).c; ⇒ (a+b)(c);(a=b)();(a?b:c)[d];(a||b).c;
a[(b, c)]; a[b = c]; (a.b).c; (a[b])[c]; (a()).b; (a())(); ⇒ a[b,c];a[b=c];a.b.c;a[b][c];a().b;a()();
new (a.b); new a.b; new (a[b]); ⇒ new a.b();new a.b();new a[b]();
new (a().b)(); new (a())(); new (a()); new a()(); ⇒ new(a().b)();new(a())();new(a())();new a()();
new a.b.c(d); new (a.b.c)(d, e); ⇒ new a.b.c(d);new a.b.c(d,e);
new (a()[b]); new (a(b).c.d)(e); new (a[b()]); ⇒ new(a()[b])();new(a(b).c.d)(e);new a[b()]();
(new a).b; new a().b; (new a)(); (new a); ⇒ new a().b;new a().b;new a()();new a();
new (new a); new new a; new (new a(b))(c); new (new a().b); ⇒ new new a()();new new a()();new new a(b)(c);new new a().b();
new (function () {}); new function () { a(); }; new ({}); new []; ⇒ new function(){}();new function(){a();}();new{}();new[]();
new (a, b); new (a + b)(c); new (a, b).c; new ((a(), b).c); ⇒ new(a,b)();new(a+b)(c);new(a,b).c();new(a(),b).c();
new this; new a((b, c)); -new a; new (-a); ⇒ new this();new a((b,c));-new a();new(-a)();
(1).a; 1 .a; (1)[a]; 1[a]; a[1].b; ⇒ (1).a;(1).a;(1)[a];(1)[a];a[1].b;
(1)(); 1 (a); new 1; new (1 .a); -1 .a; (-1).a; ⇒ 1();1(a);new 1();new(1).a();-(1).a;(-1).a;
\"a\".b; \"a\"[0]; true.a; null[a]; this.a; [].a; ⇒ \"a\".b;\"a\"[0];true.a;null[a];this.a;[].a;
({}).a; ({}).a + 1; ({} in a); ({}), a; ({})[a] = b; ⇒ ({}.a);({}.a+1);({}in a);({},a);({}[a]=b);
({}); (({})); (({}), a).b; (({}) + a) * b; ⇒ ({});({});({},a).b;({}+a)*b;
(function () {})(); (function () {}()); (function () {} + 1) * 2; ⇒ (function(){}());(function(){}());(function(){}+1)*2;
(function f() {}).x = 1; !function () {}(); ⇒ (function f(){}.x=1);!function(){}();
a = function () {}; a = {}; a = function b(c, d) {}; [{}]; a({}); -{}; ⇒ a=function(){};a={};a=function b(c,d){};[{}];a({});-{};
(function () {}) ? a : b; ({}).a++; ({}).a ? b : c; ⇒ (function(){}?a:b);({}.a++);({}.a?b:c);
";

/// Heads of `for`, statements, functions, texts, numbers and records.
static OTHERS: &str = "
for ((a in b); ; ) ; for (var i = (a in b); ; ) ; ⇒ for((a in b);;);for(var i=(a in b);;);
for (a[(b in c)]; ; ) ; for (a[b in c]; ; ) ; ⇒ for(a[(b in c)];;);for(a[(b in c)];;);
for (x = function () { a in b; }; ; ) ; ⇒ for(x=function(){a in b;};;);
for (a in b) ; for (var a in b) ; for (a.b in c, d) ; for ((a) in (b in c)) ; ⇒ for(a in b);for(var a in b);for(a.b in c,d);for(a in b in c);
for (a[b in c] in d) ; for (a(b in c)[d] in e) ; ⇒ for(a[b in c]in d);for(a(b in c)[d]in e);
for (; a in b; c in d) e in f; for (new (a in b)(c in d); ; ) ; ⇒ for(;a in b;c in d)e in f;for(new(a in b)((c in d));;);
for (((a in b) in c); ; ) ; for (!(a in b); ; ) ; for ((a in b) ? c in d : (e in f); ; ) ; ⇒ for(((a in b)in c);;);for(!(a in b);;);for((a in b)?(c in d):(e in f);;);
for (f(a in b, [c in d]); ; ) ; for ({x: a in b}.y; ; ) ; ⇒ for(f((a in b),[(c in d)]);;);for({\"x\":(a in b)}.y;;);
for (var a = 1, b = (c in d) + 1, e; f; g) h; for (a = (b in c), (d in e); ; ) ; ⇒ for(var a=1,b=(c in d)+1,e;f;g)h;for(a=(b in c),(d in e);;);
for (a = function () { for ((b in c); d in e; ) ; }; ; ) ; ⇒ for(a=function(){for((b in c);d in e;);};;);
for ((a, b); (c, d); (e, f)) ; for (a in (b, c)) ; for (var a = (b, c); ; ) ; for (; ; ) ; ⇒ for(a,b;c,d;e,f);for(a in b,c);for(var a=(b,c);;);for(;;);
{} { a; { ; } b; } ⇒ {}{a;{;}b;}
if (a) b; else if (c) d; else e; ⇒ if(a)b;else if(c)d;else e;
if (a) { if (b) c; } else d; if (a) if (b) c; else d; ⇒ if(a){if(b)c;}else d;if(a)if(b)c;else d;
if (a) ; else { } if ((a, b)) c; else -d; ⇒ if(a);else{}if(a,b)c;else-d;
do a; while (b); do { } while ((a, b)); do if (a) b; while (c); do ++a; while (b); ⇒ do a;while(b);do{}while(a,b);do if(a)b;while(c);do++a;while(b);
while (a) b; while ((a, b)) ; with (a) b; with ((a, b)) { c; } ⇒ while(a)b;while(a,b);with(a)b;with(a,b){c;}
switch (a) { case 1: b; c; default: d; case \"e\": case (f, g): break; } ⇒ switch(a){case 1:b;c;default:d;case\"e\":case f,g:break;}
switch ((a, b)) { } switch (a) { default: } ⇒ switch(a,b){}switch(a){default:}
a: for (; ; ) { break a; } b: c: d; e: { } ⇒ a:for(;;){break a;}b:c:d;e:{}
break a; continue a; break; continue; ⇒ break a;continue a;break;continue;
return; return a; return \"a\"; return (a, b); return [a]; return -a; ⇒ return;return a;return\"a\";return a,b;return[a];return-a;
throw a; throw \"a\"; throw (a, b); throw {}; throw function () {}; ⇒ throw a;throw\"a\";throw a,b;throw{};throw function(){};
try { a; } catch (b) { c; } ⇒ try{a;}catch(b){c;}
try { } finally { a; } ⇒ try{}finally{a;}
try { a; } catch (b) { } finally { c; } ⇒ try{a;}catch(b){}finally{c;}
function f() { } function g(a) { return a; } ⇒ function f(){}function g(a){return a;}
function f(a, b, c) { function g() { return function () { }; } return g; } ⇒ function f(a,b,c){function g(){return function(){};}return g;}
\"\\b\\t\\n\\v\\f\\r\\\"\\\\\"; \"\\'\\/\\q\"; ⇒ \"\\b\\t\\n\\v\\f\\r\\\"\\\\\";\"'/q\";
\"</script>\"; \"]]>\"; \"<!--\"; \"-->\"; \"<\" + \">\"; ⇒ \"\\x3C/script\\x3E\";\"]]\\x3E\";\"\\x3C!--\";\"--\\x3E\";\"\\x3C\"+\"\\x3E\";
\"\\uD800\"; '\\uDFFF'; \"\\uDE00\\uD83D\"; ⇒ \"\\uD800\";\"\\uDFFF\";\"\\uDE00\\uD83D\";
\"\u{1F600}\"; '\u{10FFFF}'; ⇒ \"\\uD83D\\uDE00\";\"\\uDBFF\\uDFFF\";
\"\u{E9}\" + '\\u00e9\\xe9'; ⇒ \"\\xE9\"+\"\\xE9\\xE9\";
\"\\0\"; \"\\x01\\x1f\\x7e\\x7F\\xff\\u0100\\u2028\\uFFFF\"; ⇒ \"\\x00\";\"\\x01\\x1F~\\x7F\\xFF\\u0100\\u2028\\uFFFF\";
'it\\'s'; \"it's\"; '\"'; ''; ' '; ⇒ \"it's\";\"it's\";\"\\\"\";\"\";\" \";
\"\t\x7F\u{A0}\" + '//' + \"/* */\"; ⇒ \"\\t\\x7F\\xA0\"+\"//\"+\"/* */\";
0x10; 0XfF; 0x0; 0; 7; ⇒ 16;255;0;0;7;
9007199254740991; 0x1FFFFFFFFFFFFF; ⇒ 9007199254740991;9007199254740991;
({1: a, 0x10: b, \"c d\": e, f: g}); ⇒ ({\"1\":a,\"16\":b,\"c d\":e,\"f\":g});
({\"\": a, '<\"': b, \"\\u00e9\": c, 9007199254740991: d, 'if': e, a: 1, a: 2}); ⇒ ({\"\":a,\"\\x3C\\\"\":b,\"\\xE9\":c,\"9007199254740991\":d,\"if\":e,\"a\":1,\"a\":2});
({a: {b: [c]}, d: function () { }}); a = {}; ⇒ ({\"a\":{\"b\":[c]},\"d\":function(){}});a={};
$; _; $_1 + a9; foo__; undefined; arguments.length; eval; ⇒ $;_;$_1+a9;foo__;undefined;arguments.length;eval;
";

/// Sources that are refused, and their lines.
static REFUSED: &str = "
var a = ; ⇒ refused main read 1 8
a b; ⇒ refused main read 1 2
{ ⇒ refused main read 1 1
a + b = c; ⇒ refused main read 1 6
x = 1 ⇒ refused main read 1 5
if ( ⇒ refused main read 1 4
return ⇒ refused main read 1 6
++ -a; ⇒ refused main read 1 3
[a,,b]; ⇒ refused main read 1 3
x = {a: 1,}; ⇒ refused main read 1 10
a.if; ⇒ refused main read 1 2
a ? b, c : d; ⇒ refused main read 1 5
for (a = b in c; ; ) ; ⇒ refused main read 1 11
if (a) function f() {} ⇒ refused main read 1 7
1; \u{E9}; ⇒ refused main lex 2 3
\"a ⇒ refused main lex 3 0
1; /* a ⇒ refused main lex 4 3
'\\x4'; ⇒ refused main lex 5 0
010; ⇒ refused main lex 6 0
1 + 1.5; ⇒ refused main lex 6 4
9007199254740992; ⇒ refused main lex 7 0
foo\\u005f_; ⇒ refused main lex 8 3
a = /b/; ⇒ refused main lex 9 4
";

/// Whether the source is printed as the text and a line end.
fn prints(alloc: Global, source: &str, text: &str) -> Result<bool, Memory> {
    let (status, output) = run(alloc, "format", source.as_bytes())?;
    Ok(status == Status::Done && is_line(&output, text))
}

/// The first row of the table, a source and its printed text, for which that isn't so is the failure.
fn check_prints(alloc: Global, table: &'static str) -> Result<(), Fail> {
    for row in table.lines() {
        let (source, text) = row.split_once(" ⇒ ").unwrap_or((row, ""));
        if !row.is_empty() && !prints(alloc, source, text)? {
            return Err(row.into());
        }
    }
    Ok(())
}

/// A source with line ends of two kinds.
const LINES: &str = "\u{FEFF}a /* \n */\u{A0}+\r\n\tb // d\u{2028};";

#[test]
fn tokens_are_spaced(rt: HostRuntime) -> Result<(), Fail> {
    check_prints(rt.alloc(), SPACED)?;
    assert!(rt; prints(rt.alloc(), LINES, "a+b;")?);
    Ok(())
}

#[test]
fn parts_are_enclosed(rt: HostRuntime) -> Result<(), Fail> {
    check_prints(rt.alloc(), ENCLOSED)
}

#[test]
fn each_form_is_printed(rt: HostRuntime) -> Result<(), Fail> {
    check_prints(rt.alloc(), OTHERS)
}

/// Whether a source of one byte, repeated so often, is refused with this line.
fn refuses_repeated(alloc: Global, byte: u8, count: usize, line: &str) -> Result<bool, Memory> {
    let input = vec![in alloc; byte; count]?;
    refuses(alloc, "format", &input, line)
}

/// A byte, how often it stands in a source that is refused, and the line.
static REPEATED: [(u8, usize, &str); 6] = [
    (b'{', 128, "refused main read 1 128"),
    (b'{', 129, "refused main read 2 0"),
    (b'(', 257, "refused main read 2 0"),
    (b' ', 524_289, "refused main lex 10 0"),
    (b' ', 4_194_305, "refused main input 1 0"),
    (0xFF, 1, "refused main lex 1 0"),
];

/// The first row for which that isn't so is the failure.
fn check_repeated(alloc: Global) -> Result<(), Fail> {
    for (byte, count, line) in REPEATED.iter() {
        if !refuses_repeated(alloc, *byte, *count, line)? {
            return Err((*line).into());
        }
    }
    Ok(())
}

#[test]
fn each_refusal_of_format(rt: HostRuntime) -> Result<(), Fail> {
    check_refusals(rt.alloc(), "format", REFUSED)?;
    assert!(rt; refuses(rt.alloc(), "format", b"a\nb;", "refused main read 1 2")?);
    assert!(rt; refuses(rt.alloc(), "format", b"\"a\nb\";", "refused main lex 3 0")?);
    check_repeated(rt.alloc())
}
