//! Included files that the command does not name, and that are next to the file that includes them.

use cli_sources::{Sources, lies_beside};
use explain::Explained;
use explain_findings::{Finding, Note, Topic};
use srcset::Code;
use std::alloc::AllocError;

/// Notes for each included file that is not found, but is next to the file that includes it, that it is there.
pub(crate) fn look_beside(
    rt: &HostRuntime,
    sources: &Sources<'_>,
    found: &mut Explained,
) -> Result<(), AllocError> {
    look(rt, sources, &mut found.first)?;
    for finding in found.further.iter_mut() {
        look(rt, sources, finding)?;
    }
    Ok(())
}

fn look(rt: &HostRuntime, sources: &Sources<'_>, finding: &mut Finding) -> Result<(), AllocError> {
    if finding.fault.code != Code::IncludeNotFound.number() {
        return Ok(());
    }
    let Some(name) = quoted(finding.shown.token.as_slice()) else {
        return Ok(());
    };
    let path = sources
        .path_of(finding.fault.file.as_str())
        .unwrap_or_default();
    if path.is_empty() || !lies_beside(rt, path, name)? {
        return Ok(());
    }
    let text = format!(in rt.alloc();
        "it lies beside the file that includes it: name `{name}` behind MAIN, or give -I ."
    )?;
    put_hint(finding.shown.notes.as_mut_slice(), text);
    Ok(())
}

/// The text between the quotes of a header name.
fn quoted(token: &[u8]) -> Option<&str> {
    let Ok(text) = str::from_utf8(token) else {
        return None;
    };
    text.strip_prefix("\"")?.strip_suffix("\"")
}

/// Puts a hint in place of the general one.
fn put_hint(notes: &mut [Note], text: String) {
    if let Some(number) = notes.iter().position(|note| note.topic == Topic::Hint) {
        if let Some(note) = notes.get_mut(number) {
            note.text = text;
        }
    }
}
