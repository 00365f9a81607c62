//! Manifests of pages of one text.

use caja_units::Memory;
use serde_json::json;
use std::alloc::Global;

/// The manifest of a page whose only module, `main`, is this text in this language, without grants and events.
pub fn manifest_in(alloc: Global, language: &str, text: &str) -> Result<String, Memory> {
    let page = json!(in alloc; {
        "version": 1,
        "modules": [{"name": "main", "language": language, "source": text}]
    })?;
    Ok(page.to_string(alloc)?)
}

/// The same of a text of ECMAScript 3, which runs as it stands.
pub fn manifest_of(alloc: Global, text: &str) -> Result<String, Memory> {
    manifest_in(alloc, "es3", text)
}
