//! Tables of rows, asks, and whether they are allowed.

use crate::rules::AskRow;
use url_rule::UriKind::{Image, Link, Style};
use url_tables::TableRow;

/// Links to a host and to those below it.
pub static BELOW_TABLE: [TableRow; 1] = [(Some(Link), "https", Some("e.example"), true)];

pub static BELOW: [AskRow; 21] = [
    (Link, "https", "e.example", true),
    (Link, "https", "a.e.example", true),
    (Link, "https", "a.b.e.example", true),
    (Link, "https", "xe.example", false),
    (Link, "https", ".e.example", true),
    (Link, "https", "e.example.", false),
    (Link, "https", "example", false),
    (Link, "https", "e.exampl", false),
    (Link, "https", "e.example.org", false),
    (Link, "https", "a-e.example", false),
    (Link, "https", "axexexample", false),
    (Link, "https", "E.example", false),
    (Link, "https", "", false),
    (Link, "https", "a.E.example", false),
    (Image, "https", "e.example", false),
    (Style, "https", "e.example", false),
    (Link, "http", "e.example", false),
    (Link, "HTTPS", "e.example", false),
    (Link, "https:", "e.example", false),
    (Link, "", "e.example", false),
    (Link, "httpse", ".example", false),
];

/// A host alone, for anything.
pub static ALONE_TABLE: [TableRow; 1] = [(None, "https", Some("e.example"), false)];

pub static ALONE: [AskRow; 7] = [
    (Link, "https", "e.example", true),
    (Image, "https", "e.example", true),
    (Style, "https", "e.example", true),
    (Link, "https", "a.e.example", false),
    (Link, "https", ".e.example", false),
    (Link, "http", "e.example", false),
    (Link, "https", "f.example", false),
];

/// Any host.
pub static ANY_HOST_TABLE: [TableRow; 1] = [(None, "https", None, false)];

pub static ANY_HOST: [AskRow; 7] = [
    (Link, "https", "e.example", true),
    (Image, "https", "f.example", true),
    (Style, "https", "[::1]", true),
    (Link, "https", "", true),
    (Link, "http", "e.example", false),
    (Link, "httpsx", "e.example", false),
    (Link, "http", "s", false),
];

/// Any host, and those below.
pub static SUB_OF_ANY_TABLE: [TableRow; 1] = [(Some(Image), "http", None, true)];

pub static SUB_OF_ANY: [AskRow; 4] = [
    (Image, "http", "e.example", true),
    (Image, "http", "a.e.example", true),
    (Link, "http", "e.example", false),
    (Image, "https", "e.example", false),
];

/// Several rows: one that matches is enough.
pub static SEVERAL_TABLE: [TableRow; 5] = [
    (Some(Link), "http", Some("a.example"), false),
    (Some(Image), "https", Some("b.example"), true),
    (Some(Style), "https", Some("[::1]"), true),
    (Some(Link), "https", Some("127.0.0.1"), true),
    (Some(Link), "https", Some(""), true),
];

pub static SEVERAL: [AskRow; 16] = [
    (Link, "http", "a.example", true),
    (Image, "http", "a.example", false),
    (Link, "http", "x.a.example", false),
    (Image, "https", "b.example", true),
    (Image, "https", "x.b.example", true),
    (Link, "https", "b.example", false),
    (Image, "http", "b.example", false),
    (Style, "https", "[::1]", true),
    (Style, "https", "::1", false),
    (Link, "https", "127.0.0.1", true),
    (Link, "https", "1.127.0.0.1", true),
    (Link, "https", "x.", true),
    (Link, "https", "x", false),
    (Link, "https", "", true),
    (Link, "http", "b.example", false),
    (Style, "https", "b.example", false),
];

/// No row: all is denied.
pub static NONE_TABLE: [TableRow; 0] = [];

pub static NONE: [AskRow; 6] = [
    (Link, "https", "e.example", false),
    (Image, "https", "e.example", false),
    (Style, "http", "", false),
    (Link, "javascript", "e.example", false),
    (Link, "", "", false),
    (Image, "data", "", false),
];
