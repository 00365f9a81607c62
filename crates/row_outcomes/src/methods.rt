//! The methods of values: the name of each, and where it stands among the objects of a page.

/// The methods of functions (ES3 15.3.4).
pub const FUNCTION_METHODS: [(&[u8], u32); 2] = [(b"call", 51), (b"apply", 52)];

/// The methods of texts (ES3 15.5.4).
pub const TEXT_METHODS: [(&[u8], u32); 8] = [
    (b"charAt", 53),
    (b"charCodeAt", 54),
    (b"indexOf", 55),
    (b"lastIndexOf", 56),
    (b"slice", 57),
    (b"substring", 58),
    (b"split", 59),
    (b"concat", 60),
];

/// The methods of arrays (ES3 15.4.4).
pub const ARRAY_METHODS: [(&[u8], u32); 8] = [
    (b"concat", 61),
    (b"join", 62),
    (b"slice", 63),
    (b"push", 64),
    (b"unshift", 65),
    (b"pop", 66),
    (b"shift", 67),
    (b"reverse", 68),
];

/// The methods of nodes.
pub const NODE_METHODS: [(&[u8], u32); 13] = [
    (b"getTagName", 69),
    (b"getParentNode", 70),
    (b"getChildNodes", 71),
    (b"getElementById", 72),
    (b"getAttribute", 73),
    (b"setAttribute", 74),
    (b"getText", 75),
    (b"setText", 76),
    (b"createElement", 77),
    (b"createTextNode", 78),
    (b"appendChild", 79),
    (b"removeChild", 80),
    (b"on", 81),
];
