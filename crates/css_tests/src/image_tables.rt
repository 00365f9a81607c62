//! Texts of CSS with URLs, each with a base, empty where there is none, and what is written of what is kept of them behind the scope `#a`; or a refusal and its place.

use url_rule::UriKind::{Image, Link, Style};
use url_tables::TableRow;

/// A table for URLs, and texts that are cleaned by it.
pub struct Images {
    pub table: &'static [TableRow],
    pub rows: &'static [(&'static str, &'static str, &'static str)],
}

/// Tables of any kind, of styles alone, of all but styles, of one host, and without rows.
pub static BY_TABLE: [Images; 5] = [
    Images {
        table: &[(None, "https", None, false)],
        rows: &[
            (
                "",
                "p{background-image:url(https://e.example/x.png)}",
                "#a p{background-image:url(\"https://e.example/x.png\")}",
            ),
            (
                "",
                "p{background-image:url(\"https://e.example/x.png\")}",
                "#a p{background-image:url(\"https://e.example/x.png\")}",
            ),
            (
                "",
                "p{background-image:url('https://e.example/x.png')}",
                "#a p{background-image:url(\"https://e.example/x.png\")}",
            ),
            (
                "",
                "p{background-image:URL( https://E.example/x )}",
                "#a p{background-image:url(\"https://e.example/x\")}",
            ),
            (
                "",
                "p{background-image:url(\t\"https://e.example/x\"\n)}",
                "#a p{background-image:url(\"https://e.example/x\")}",
            ),
            (
                "",
                "p{background-image:url(\"https://e.example/x ')\")}",
                "#a p{background-image:url(\"https://e.example/x%20')\")}",
            ),
            (
                "",
                "p{background-image:url('https://e.example/\"x\"')}",
                "#a p{background-image:url(\"https://e.example/%22x%22\")}",
            ),
            (
                "",
                "p{background-image:url(\"https://e.example/x\" )}",
                "#a p{background-image:url(\"https://e.example/x\")}",
            ),
            (
                "",
                "p{background-image:url(\"https://e.example/x)}",
                "Syntax(45)",
            ),
            (
                "",
                "p{background-image:url(https://e.example/(x))}",
                "#a p{background-image:url(\"https://e.example/(x)\")}",
            ),
            (
                "",
                "p{background-image:url(https:b)}",
                "#a p{background-image:url(\"https://b/\")}",
            ),
            ("", "p{background-image:url(x.png)}", ""),
            ("", "p{background-image:url(#top)}", ""),
            ("", "p{background-image:url()}", ""),
            (
                "",
                "p{background-image:none}",
                "#a p{background-image:none}",
            ),
            (
                "",
                "p{background-image:NONE}",
                "#a p{background-image:none}",
            ),
            (
                "https://e.example/a/",
                "p{background-image:url(x.png)}",
                "#a p{background-image:url(\"https://e.example/a/x.png\")}",
            ),
            (
                "https://e.example/a/",
                "p{background-image:url(\"../x.png\")}",
                "#a p{background-image:url(\"https://e.example/x.png\")}",
            ),
            (
                "https://e.example/a/",
                "p{background-image:url(//h.example/x)}",
                "#a p{background-image:url(\"https://h.example/x\")}",
            ),
            (
                "https://e.example/a/",
                "p{background-image:url(#top)}",
                "#a p{background-image:url(\"https://e.example/a/#top\")}",
            ),
            (
                "https://e.example/a/",
                "p{background-image:url()}",
                "#a p{background-image:url(\"https://e.example/a/\")}",
            ),
            (
                "https://e.example/a/",
                "p{background-image:url(\"\")}",
                "#a p{background-image:url(\"https://e.example/a/\")}",
            ),
            (
                "https://e.example/a/",
                "p{background-image:url(')}",
                "Syntax(26)",
            ),
            (
                "https://e.example/a/",
                "p{background-image:url(\"a\" \"b\")}",
                "#a p{background-image:url(\"https://e.example/a/%22a%22%20%22b%22\")}",
            ),
            (
                "https://e.example/a/",
                "p{background-image:url(a) url(b)}",
                "",
            ),
            (
                "https://e.example/a/",
                "p{background-image:url(a),url(b)}",
                "",
            ),
            ("https://e.example/a/", "p{background-image:urls(a)}", ""),
            ("https://e.example/a/", "p{background-image:x(a)}", ""),
            (
                "https://e.example/a/",
                "p{background-image:url(javascript:x())}",
                "",
            ),
            (
                "https://e.example/a/",
                "p{background-image:url(\"JAVA\tSCRIPT:x()\")}",
                "",
            ),
            (
                "https://e.example/a/",
                "p{background-image:url(data:image/png;base64,AA)}",
                "",
            ),
            (
                "https://e.example/a/",
                "p{background-image:url(http://e.example/x)}",
                "",
            ),
            (
                "https://e.example/a/",
                "p{color:red;background-image:url(javascript:x());width:1px}",
                "#a p{color:red;width:1px}",
            ),
            (
                "https://e.example/a/",
                "p{background-image:url(b)}q{background-image:url(c)}p{background-image:url(b)}",
                "#a p{background-image:url(\"https://e.example/a/b\")}#a q{background-image:url(\"https://e.example/a/c\")}#a p{background-image:url(\"https://e.example/a/b\")}",
            ),
            (
                "https://e.example/a/",
                "p,q>i{background-image:url(b)}",
                "#a p,#a q>i{background-image:url(\"https://e.example/a/b\")}",
            ),
            (
                "https://e.example/a/",
                "p{background:url(b);list-style-image:url(b);cursor:url(b);content:url(b);src:url(b)}",
                "",
            ),
            ("https://e.example/?a\\b", "p{background-image:url(#c)}", ""),
            (
                "https://e.example/?a\\b",
                "p{background-image:url(?c)}",
                "#a p{background-image:url(\"https://e.example/?c\")}",
            ),
            ("http://b.example", "p{background-image:url(x)}", ""),
        ],
    },
    Images {
        table: &[(Some(Style), "https", None, false)],
        rows: &[(
            "https://e.example/a/",
            "p{background-image:url(b)}",
            "#a p{background-image:url(\"https://e.example/a/b\")}",
        )],
    },
    Images {
        table: &[
            (Some(Image), "https", None, false),
            (Some(Link), "https", None, false),
        ],
        rows: &[
            ("https://e.example/a/", "p{background-image:url(b)}", ""),
            ("", "p{background-image:url(https://e.example/)}", ""),
        ],
    },
    Images {
        table: &[(Some(Style), "https", Some("e.example"), true)],
        rows: &[
            (
                "",
                "p{background-image:url(https://a.e.example/x)}",
                "#a p{background-image:url(\"https://a.e.example/x\")}",
            ),
            ("", "p{background-image:url(https://xe.example/x)}", ""),
            ("", "p{background-image:url(http://e.example/x)}", ""),
        ],
    },
    Images {
        table: &[],
        rows: &[
            ("https://e.example/a/", "p{background-image:url(b)}", ""),
            (
                "https://e.example/a/",
                "p{background-image:none}",
                "#a p{background-image:none}",
            ),
        ],
    },
];
