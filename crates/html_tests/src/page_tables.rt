//! Texts of HTML as pages have them, many of them damaged, and what is kept of them as it is written, or a refusal and its place.

/// Texts of pages.
pub static PAGES: [(&str, &str); 44] = [
    (
        "<div id=\"r0\" title=\"t\"><p id=\"p\" class=\"c\">one<b>two</b></p><input id=\"i\" value=\"v\"></div><div id=\"r1\"><span id=\"q\">q</span></div><div id=\"r2\"></div>",
        "<div id=\"r0\" title=\"t\"><p id=\"p\" class=\"c\">one<b>two</b></p><input id=\"i\" value=\"v\"></div><div id=\"r1\"><span id=\"q\">q</span></div><div id=\"r2\"></div>",
    ),
    (
        "<a href=\"https://e.example*&quot; onclick=&quot;alert(1)\">x<\\a><P>a</p><hr />",
        "Mismatch(77)",
    ),
    (
        "&amp;&lt;&bogus;<script/xss src=\"http://xss.examplx.js\"></script>",
        "BadReference(9)",
    ),
    (
        "<BODYNBACGKROU D=\"javascript:alert('XSS')\"></BODY>",
        "Mismatch(43)",
    ),
    (
        "<img>a<input><video><source onerror=alert(1)></video><a href=\"https://e.example/\">x</a>",
        "Mismatch(45)",
    ),
    (
        "\"'<p =x></p><a href=\"blob:https://e.example/1\">x</a>",
        "BadAttr(5)",
    ),
    (
        "<!DOCTYPE a><!DOCTYPE b><link><meta><base>x<pa:am><DIV STYLE=\"background-ier url(javascript:alert('XSS'))\"></DI\u{FFFD}>",
        "OpenTag(12)",
    ),
    (
        "<a href=\"https&#58;//e.example/\">x}</aimg\u{B}src=x onerror=alert(-)>",
        "Mismatch(35)",
    ),
    (
        "&#65;&#x41;&#x6a;&#x6A;<math><mi//xlink:href=\"data:x,<script>alert(1)</script>\"></mi></math>",
        "BadAttr(32)",
    ),
    (
        "<XSS STYLE=\"be\nhavior: url(xss.htc);\"></\u{FFFD}XSS><script><style></script>xa<!--",
        "OpenTag(38)",
    ),
    (
        "<button xormaction=\"javascript:alert(1)\">x</button><img src=\"x\" onerror=\"alert(1)\"><script/xss src=\"ttp://fss.example/x.js\"></script>",
        "BadAttr(90)",
    ),
    (
        "<!DOCTYPE html>a<keygen autofocus onfocus=alert(1)><p onclick=\"x()\">a<script>b</script><a href=\"java\tscript:c\">d</a><a href=\"https://e.example/f\">g</a></p>",
        "Mismatch(155)",
    ),
    ("<!BLEME_\u{FFFD}NT a>", "OpenTag(0)"),
    (
        "</p><svg><foreignObject><img src=x onerror=alert(1)></foreignObject></svg><marquee onstart=alert(1)>x</marquee>",
        "Mismatch(0)",
    ),
    ("a<p>", "Mismatch(4)"),
    (
        "&foo;<p a a><b><i>x</i><u></u></b><label for=\"x\" onclick=\"alert(1)\">x</label>",
        "BadReference(0)",
    ),
    (
        "<textarea></textarea><script>alert(1)</script><!DOCTYPE\u{FFFD}html<p a A></p>",
        "OpenTag(46)",
    ),
    (
        "<script><style></script>x<scr\u{0}ipt>alert(1)</script><button formaction=\"javascript:alert(1)\">x</button>",
        "BadAttr(29)",
    ),
    ("<!-- --!><script>alert(1)<crielse pt> -", "OpenTag(0)"),
    (
        "<script src=//xss.eximple/x.js></script>a > b}<br / >",
        "BadAttr(50)",
    ),
    (
        "<STYLE>@import'http://xss.example/xss.css';</STYLEe<a href=\"//f.example\">x</a><a hre\u{15}<\"/c\">y</a><a href=\"?z\">z</a>=a hr>f=\"../../c\">w</a>",
        "Mismatch(43)",
    ),
    (
        "<p onclick=\"x()\">a<script>b</sc}ript></p><",
        "Mismatch(42)",
    ),
    (
        "<BODY ONLOAD=alert('XSS')><a><blockquote></blockquote><button></button><code></code><div></div><em></em></a>",
        "Mismatch(108)",
    ),
    (
        "ab&Amp;<a href=\"\u{1F}javascript:alert(1)\u{2028}\">x</a>",
        "BadReference(2)",
    ),
    (
        "<p title=\"--><script>alert(1)</script>\">x</p><input type=\"button\"><input type=\"checkbox\"><input type=\"password\"><inp++ut type=\"TEXT\"><!-->",
        "BadAttr(116)",
    ),
    (
        "<table><thead><tr><th>a</th></tr></thead><tbody><tr><td>b</td></tr></tbody></table><IMG SRC=`javascript:alert(\"RSnake says, 'XSS'\")`><svg onload=alert(1)></svg>",
        "BadAttr(122)",
    ),
    (
        "<a href=\"data:text/html,<script>alert(1)</script>\">x</a><IMG SRC=&#106;&#97;&#118;&#97;&#115;&#99;&#114;&#105;&#112;&#116;&#58;&#97;&#108;&#101;&#114;&#116;&#40;&#39;&#88;&#83;&#83;&#39;&#41;><BODY ONLOAD=alert('XSS')>",
        "Mismatch(218)",
    ),
    (
        "<p><!DOCTYPE html></p><b/alt=\"1\"onclick=alert(1)>x</b><a href=\" https://e.example/ \">x</a>",
        "OpenTag(3)",
    ),
    (
        "<a href=\" https://e.example/ \">x</a><a href=\"java&Tab;script:alert(1)\">x</a>",
        "BadReference(49)",
    ),
    (
        "<html><head><title>t</title></head><body>x</body></ml><p></DOCTYPE html><!p>",
        "Mismatch(49)",
    ),
    ("<scr\u{0}ipt>alert(1)</script>a<p ", "BadAttr(4)"),
    (
        "<svg></p><style><a id=\"</style><img src=1 onerror=alert(1)>\"></svg>&lsquo;&rsquo;&ldquo;&rdquo;&nbsp;&yuml;&times;&divide;",
        "Mismatch(5)",
    ),
    ("&#X41;<BODY ONLOAD=alert('XSS')>", "Mismatch(32)"),
    (
        "<SCRIPT SRC=http://xss.example/xss.js?< B >",
        "Mismatch(43)",
    ),
    (
        "<a hre\u{FFFD}=\"java&NewLine;{script:alert(1)\">x</a><!--[if gte IE 4]><SCRIPT>alert('XSS');</SCRI+PT><![endif]-->",
        "BadAttr(6)",
    ),
    (
        "<select autofocus onfo+cus=alert(1)></\"select>",
        "BadAttr(22)",
    ),
    ("a<br></br>", "Mismatch(5)"),
    (
        "<a href=\"//evil.example/\">x</a>a<!--<a href=\"\u{0}javascript:alert(1)\">x</a>",
        "OpenTag(32)",
    ),
    (
        "<?php echo '<script>alert(1)</script>'; ?>&#0065;<!DOCTYPE html><script>alert(1)</script>",
        "OpenTag(49)",
    ),
    (
        "<p id=\"1a\"></p><p id=\"\"></p><p id=\"a b\"></p><p id=\"a.b\"></p><h2></h2><h3></h3><h4></h4><h5></h5><h6></h6><svg></p><style><a id=\"</style><img src=1 onerror=alert(1)>\"></svg>",
        "Mismatch(110)",
    ),
    (
        "<input type=\"button\"><ipput typ.e=\"checkbox\"><input type=\"nassword\"><input type=\"TEXT\"><s(cr\u{0}ipt>alert(1)</script><a href=\"mailto:a@b\">x</a>",
        "BadAttr(31)",
    ),
    ("<p a a", "OpenTag(0)"),
    ("x__", "x__"),
    (
        "<div id=\"r0\" title=\"t\"><p id=\"p\" class=\"c\">one<b>two</b></p><input id=\"i\" value=\"v\"></div><div id=\"r1\"><span id=\"q\">q</span></div><div id=\"r2\"n</div>",
        "BadAttr(143)",
    ),
];
