//! Texts of HTML in the manner of those that pass careless filters, and what is kept of them as it is written, or a refusal and its place.

/// Scripts.
pub static SCRIPTS: [(&str, &str); 19] = [
    ("<script>steal()</script>", ""),
    ("<SCRIPT>steal()</SCRIPT>", ""),
    ("<ScRiPt src=//x.example/y.js></sCrIpT>", ""),
    ("<script src='x'/>", "BadAttr(15)"),
    ("<script/src=x></script>", "BadAttr(7)"),
    ("<script\n>steal()</script\n>", ""),
    ("<script\u{B}>steal()</script>", "BadAttr(7)"),
    ("<scr<script>ipt>steal()</script>", "BadAttr(4)"),
    ("<<script>steal();//<</script>", "&lt;"),
    ("<script>a</script>b</script>", "Mismatch(19)"),
    ("<script>'</scr'+'ipt>'</script>", ""),
    ("<script><!--steal()//--></script>", ""),
    ("<script>steal()", "Mismatch(15)"),
    ("<s&#99;ript>steal()</script>", "BadAttr(2)"),
    (
        "&lt;script&gt;steal()&lt;/script&gt;",
        "&lt;script&gt;steal()&lt;/script&gt;",
    ),
    (
        "&#60;script&#62;steal()&#60;/script&#62;",
        "&lt;script&gt;steal()&lt;/script&gt;",
    ),
    ("<script type='text/javascript'>steal()</script>", ""),
    ("<noscript><img src=x onerror=steal()></noscript>", ""),
    (
        "<noscript><p title='</noscript><img src=x onerror=steal()>'></p></noscript>",
        "",
    ),
];

/// Attributes of events.
pub static EVENTS: [(&str, &str); 21] = [
    ("<img src=x onerror=steal()>", "<img>"),
    ("<IMG SRC=x ONERROR=steal()>", "<img>"),
    ("<img src=x oNeRrOr='steal()'>", "<img>"),
    ("<img src=x onerror\n=steal()>", "BadAttr(19)"),
    ("<img/src=x/onerror=steal()>", "BadAttr(4)"),
    ("<img src='x'onerror='steal()'>", "<img>"),
    (
        "<img src=\"x\" onerror=\"steal()\" title=\"y\">",
        "<img title=\"y\">",
    ),
    ("<p onmouseover=steal()>a</p>", "<p>a</p>"),
    ("<p/onclick=steal()>a</p>", "BadAttr(2)"),
    ("<body onload=steal()></body>", ""),
    ("<input autofocus onfocus=steal()>", "<input>"),
    ("<b onclick=\"a&quot;b\">c</b>", "<b>c</b>"),
    ("<p title='x' onclick='y' onclick='z'></p>", "BadAttr(25)"),
    (
        "<p title='x\" onclick=\"steal()'>a</p>",
        "<p title=\"x&quot; onclick=&quot;steal()\">a</p>",
    ),
    (
        "<p title=x&quot;onclick=steal()>a</p>",
        "<p title=\"x&quot;onclick=steal()\">a</p>",
    ),
    (
        "<p title=\"x&#34; onclick=&#34;steal()\">a</p>",
        "<p title=\"x&quot; onclick=&quot;steal()\">a</p>",
    ),
    ("<p onclick onclick>a</p>", "BadAttr(11)"),
    ("<p o\u{0}nclick=steal()>a</p>", "BadAttr(4)"),
    ("<video><source onerror=steal()></video>", "Mismatch(31)"),
    ("<details open ontoggle=steal()>a</details>", "a"),
    ("<p xml:onclick=steal()>a</p>", "<p>a</p>"),
];

/// URLs that run code, and those that fetch something.
pub static URLS: [(&str, &str); 23] = [
    ("<a href='javascript:steal()'>x</a>", "<a>x</a>"),
    ("<a href=JaVaScRiPt:steal()>x</a>", "<a>x</a>"),
    ("<a href=' javascript:steal()'>x</a>", "<a>x</a>"),
    ("<a href='java\tscript:steal()'>x</a>", "<a>x</a>"),
    ("<a href='java&#10;script:steal()'>x</a>", "<a>x</a>"),
    ("<a href='&#106;avascript:steal()'>x</a>", "<a>x</a>"),
    (
        "<a href=&#x6a;avascript&colon;steal()>x</a>",
        "BadReference(23)",
    ),
    (
        "<a href='data:text/html,<script>steal()</script>'>x</a>",
        "<a>x</a>",
    ),
    ("<img src='javascript:steal()'>", "<img>"),
    ("<img src=data:image/svg+xml;base64,AAAA>", "<img>"),
    (
        "<img dynsrc=javascript:steal() lowsrc=javascript:steal()>",
        "<img>",
    ),
    ("<input type=image src=javascript:steal()>", "<input>"),
    (
        "<table background=javascript:steal()><tr><td background=x>a</td></tr></table>",
        "<table><tr><td>a</td></tr></table>",
    ),
    ("<a xlink:href=javascript:steal()>x</a>", "<a>x</a>"),
    (
        "<form action=javascript:steal()><input type=submit></form>",
        "<input>",
    ),
    (
        "<button formaction=javascript:steal()>x</button>",
        "<button>x</button>",
    ),
    ("<base href='javascript:steal()//'>", ""),
    ("<link rel=stylesheet href=javascript:steal()>", ""),
    (
        "<meta http-equiv=refresh content='0;url=javascript:steal()'>",
        "",
    ),
    ("<object data=javascript:steal()></object>", ""),
    ("<embed src=javascript:steal()></embed>", ""),
    ("<iframe src=javascript:steal()></iframe>", ""),
    ("<iframe srcdoc='<script>steal()</script>'></iframe>", ""),
];

/// Styles, and elements of other languages.
pub static STYLES: [(&str, &str); 11] = [
    ("<p style='width:expression(steal())'>a</p>", "<p>a</p>"),
    (
        "<p style=\"background:url(javascript:steal())\">a</p>",
        "<p>a</p>",
    ),
    ("<style>p{background:url(javascript:steal())}</style>", ""),
    ("<style>@import 'x';</style><p>a</p>", "<p>a</p>"),
    ("<style></style><script>steal()</script>", ""),
    (
        "<style><img src='</style><img src=x onerror=steal()>'>",
        "<img>'&gt;",
    ),
    ("<svg><script>steal()</script></svg>", ""),
    ("<svg onload=steal()></svg>", ""),
    ("<svg><style><img src=x onerror=steal()></style></svg>", ""),
    (
        "<math><mtext><img src=x onerror=steal()></mtext></math>",
        "<img>",
    ),
    ("<math href=javascript:steal()>x</math>", "x"),
];

/// Comments and what looks like one.
pub static CONDITIONS: [(&str, &str); 8] = [
    ("<!--[if IE]><script>steal()</script><![endif]-->", ""),
    ("<![if IE]><script>steal()</script>", "OpenTag(0)"),
    ("<!--><script>steal()</script>-->", ""),
    ("<!-- --!><script>steal()</script>", "OpenTag(0)"),
    ("<!--<script>-->steal()<!--</script>-->", "steal()"),
    ("<![CDATA[<script>steal()</script>]]>", "OpenTag(0)"),
    (
        "<?xml version='1.0'?><p>a</p>",
        "&lt;?xml version='1.0'?&gt;<p>a</p>",
    ),
    ("<!ENTITY x 'y'>", "OpenTag(0)"),
];

/// Broken markup.
pub static BROKEN: [(&str, &str); 22] = [
    ("<p title=\"a>b", "OpenTag(0)"),
    ("<p title='a\"b'>c</p>", "<p title=\"a&quot;b\">c</p>"),
    ("<p title=`a`>b</p>", "<p title=\"`a`\">b</p>"),
    ("<p<b>a</b>", "BadAttr(2)"),
    ("<p></p<b>a</b>", "BadAttr(6)"),
    ("<a<b onclick=steal()>c</a<b>", "BadAttr(2)"),
    (
        "<p title=a\"b onclick=c>d</p>",
        "<p title=\"a&quot;b\">d</p>",
    ),
    ("<\u{0}script>steal()</script>", "Mismatch(16)"),
    ("<p>\u{0}</p>", "<p>\u{0}</p>"),
    ("<p\u{0}title=a>b</p>", "BadAttr(2)"),
    ("</script><script>steal()</script>", "Mismatch(0)"),
    ("<title><script>steal()</script></title>", ""),
    ("<title></title><script>steal()</script>", ""),
    (
        "<xmp><p title='</xmp><img src=x onerror=steal()>'></p></xmp>",
        "<p title=\"&lt;/xmp&gt;&lt;img src=x onerror=steal()&gt;\"></p>",
    ),
    ("<textarea><script>steal()</script></textarea>", ""),
    ("<plaintext><script>steal()</script></plaintext>", ""),
    (
        "\u{BC}script\u{BE}steal()\u{BC}/script\u{BE}",
        "\u{BC}script\u{BE}steal()\u{BC}/script\u{BE}",
    ),
    ("<applet code=x><param name=y></applet>", ""),
    ("<isindex prompt=x>", ""),
    ("<bgsound src=javascript:steal()></bgsound>", ""),
    ("<p id='a' id='b'></p>", "BadAttr(10)"),
    ("<p class='a' CLASS='onclick'></p>", "BadAttr(13)"),
];
