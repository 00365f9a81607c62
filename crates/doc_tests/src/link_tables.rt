//! Deeds that set links and images, with a table for URLs and a base.

use crate::deed_tables::{Ask, Deeds};
use url_rule::UriKind::{Image, Link, Style};
use url_tables::TableRow;

/// Deeds with a table, and a base, which is none where it is empty.
pub struct ByTable {
    pub table: &'static [TableRow],
    pub base: &'static str,
    pub deeds: &'static [Deeds],
}

/// Where any host is allowed by `https`, with a base; and what stands in cleaned HTML.
pub static LINKS: [Deeds; 2] = [
    Deeds {
        html: "<div id=\"a\"><a>x</a><img></div>",
        roots: &["a"],
        deeds: &[
            (1, Ask::Attribute("href"), "null"),
            (
                1,
                Ask::SetAttribute("href", "b"),
                "undefined | set 0 1 href https://e.example/a/b",
            ),
            (1, Ask::Attribute("href"), "text https://e.example/a/b"),
            (
                1,
                Ask::SetAttribute("href", "#top"),
                "undefined | set 0 1 href #top",
            ),
            (
                1,
                Ask::SetAttribute("href", "javascript:f()"),
                "error not allowed",
            ),
            (
                1,
                Ask::SetAttribute("href", "http://e.example/"),
                "error not allowed",
            ),
            (
                1,
                Ask::SetAttribute("href", "ja\tvascript:f()"),
                "error not allowed",
            ),
            (1, Ask::Attribute("href"), "text #top"),
            (
                1,
                Ask::SetAttribute("href", "#"),
                "undefined | set 0 1 href https://e.example/a/#",
            ),
            (
                1,
                Ask::SetAttribute("href", "//h.example"),
                "undefined | set 0 1 href https://h.example/",
            ),
            (
                1,
                Ask::SetAttribute("href", "HTTPS://H.Example/X"),
                "undefined | set 0 1 href https://h.example/X",
            ),
            (1, Ask::SetAttribute("src", "c"), "error not allowed"),
            (1, Ask::SetAttribute("HREF", "c"), "error not allowed"),
            (
                3,
                Ask::SetAttribute("src", "../i.png"),
                "undefined | set 0 3 src https://e.example/i.png",
            ),
            (
                3,
                Ask::SetAttribute("src", "#top"),
                "undefined | set 0 3 src https://e.example/a/#top",
            ),
            (
                3,
                Ask::SetAttribute("src", ""),
                "undefined | set 0 3 src https://e.example/a/",
            ),
            (
                3,
                Ask::SetAttribute("src", "data:image/png,x"),
                "error not allowed",
            ),
            (3, Ask::SetAttribute("href", "c"), "error not allowed"),
            (3, Ask::Attribute("src"), "text https://e.example/a/"),
            (0, Ask::SetAttribute("href", "c"), "error not allowed"),
            (0, Ask::SetAttribute("src", "c"), "error not allowed"),
            (2, Ask::SetAttribute("href", "c"), "error not allowed"),
            (0, Ask::AppendChild(1), "argument | append 0 0 1"),
            (1, Ask::Attribute("href"), "text https://h.example/X"),
            (
                1,
                Ask::SetAttribute("href", "b"),
                "undefined | set 0 1 href https://e.example/a/b",
            ),
            (
                1,
                Ask::SetAttribute("href", "c"),
                "undefined | set 0 1 href https://e.example/a/c",
            ),
            (
                1,
                Ask::SetAttribute("href", "b"),
                "undefined | set 0 1 href https://e.example/a/b",
            ),
        ],
    },
    Deeds {
        html: "<a id=\"a\" href=\"b\"><img src=\"/c\"><a href=\"#top\"></a><a href=\"x:y\"></a></a>",
        roots: &["a"],
        deeds: &[
            (0, Ask::Attribute("href"), "text https://e.example/a/b"),
            (1, Ask::Attribute("src"), "text https://e.example/c"),
            (2, Ask::Attribute("href"), "text #top"),
            (3, Ask::Attribute("href"), "null"),
            (0, Ask::AppendChild(2), "argument | append 0 0 2"),
            (2, Ask::Attribute("href"), "text #top"),
            (1, Ask::AppendChild(2), "error not allowed"),
        ],
    },
];

/// Other tables, and no base.
pub static BY_TABLE: [ByTable; 5] = [
    ByTable {
        table: &[(None, "https", None, false)],
        base: "",
        deeds: &[Deeds {
            html: "<div id=\"a\"><a>x</a><img></div>",
            roots: &["a"],
            deeds: &[
                (1, Ask::SetAttribute("href", "b"), "error not allowed"),
                (
                    1,
                    Ask::SetAttribute("href", "#top"),
                    "undefined | set 0 1 href #top",
                ),
                (
                    1,
                    Ask::SetAttribute("href", "https://f.example"),
                    "undefined | set 0 1 href https://f.example/",
                ),
                (3, Ask::SetAttribute("src", "#top"), "error not allowed"),
                (
                    3,
                    Ask::SetAttribute("src", "https:b"),
                    "undefined | set 0 3 src https://b/",
                ),
            ],
        }],
    },
    ByTable {
        table: &[(Some(Link), "https", None, false)],
        base: "https://e.example/",
        deeds: &[Deeds {
            html: "<div id=\"a\"><a>x</a><img></div>",
            roots: &["a"],
            deeds: &[
                (
                    1,
                    Ask::SetAttribute("href", "b"),
                    "undefined | set 0 1 href https://e.example/b",
                ),
                (3, Ask::SetAttribute("src", "b"), "error not allowed"),
            ],
        }],
    },
    ByTable {
        table: &[(Some(Image), "https", None, false)],
        base: "https://e.example/",
        deeds: &[Deeds {
            html: "<div id=\"a\"><a>x</a><img></div>",
            roots: &["a"],
            deeds: &[
                (1, Ask::SetAttribute("href", "b"), "error not allowed"),
                (
                    1,
                    Ask::SetAttribute("href", "#b"),
                    "undefined | set 0 1 href #b",
                ),
                (
                    3,
                    Ask::SetAttribute("src", "b"),
                    "undefined | set 0 3 src https://e.example/b",
                ),
            ],
        }],
    },
    ByTable {
        table: &[(Some(Style), "https", None, false)],
        base: "https://e.example/",
        deeds: &[Deeds {
            html: "<div id=\"a\"><a>x</a><img></div>",
            roots: &["a"],
            deeds: &[
                (1, Ask::SetAttribute("href", "b"), "error not allowed"),
                (3, Ask::SetAttribute("src", "b"), "error not allowed"),
            ],
        }],
    },
    ByTable {
        table: &[(Some(Link), "https", Some("e.example"), true)],
        base: "https://h.example/",
        deeds: &[Deeds {
            html: "<div id=\"a\"><a>x</a><img></div>",
            roots: &["a"],
            deeds: &[
                (1, Ask::SetAttribute("href", "b"), "error not allowed"),
                (
                    1,
                    Ask::SetAttribute("href", "//a.e.example/b"),
                    "undefined | set 0 1 href https://a.e.example/b",
                ),
                (
                    1,
                    Ask::SetAttribute("href", "//xe.example/b"),
                    "error not allowed",
                ),
                (1, Ask::Attribute("href"), "text https://a.e.example/b"),
            ],
        }],
    },
];
