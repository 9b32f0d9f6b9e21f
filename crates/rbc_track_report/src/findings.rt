//! What a check finds in a document.

use crate::breach::{Breach, breach_of};
use crate::doubts::{push_bare, push_hidden_names, push_notes};
use crate::keys::push_unknown;
use crate::named_document::{Draft, draft_of};
use crate::remark::Remarks;
use rbc_track::TrackError;
use std::alloc::{AllocError, Global};
use toml::Table;

/// What a check finds in a document.
#[derive(Drop)]
pub struct Findings<'a> {
    /// What the document has. If it is a good track, its balise groups are in order: by line, then by place, then by
    /// number.
    pub draft: Draft<'a>,
    /// The rule that the document breaks, if it is no track.
    pub rule: Option<TrackError>,
    /// Where it breaks the rule first.
    pub breach: Option<Breach<'a>>,
    /// What is doubtful.
    pub remarks: Remarks<'a>,
}

/// Checks a document that breaks this rule before any other, or none. With `other_keys`, unknown keys are notes, not
/// warnings.
pub(crate) fn findings_on<'a>(
    alloc: Global,
    document: &'a Table,
    other_keys: bool,
    rule: Option<TrackError>,
) -> Result<Findings<'a>, AllocError> {
    let mut remarks = Remarks::new(alloc, other_keys);
    push_unknown(alloc, &mut remarks, document);
    push_hidden_names(&mut remarks, document);
    let mut draft = draft_of(alloc, document);
    let rule = rule_of(&draft, rule);
    let breach = match rule {
        Some(rule) => breach_of(&draft, rule),
        None => {
            draft.sort_groups();
            push_bare(&mut remarks, &draft);
            push_notes(&mut remarks, &draft);
            None
        }
    };
    if remarks.is_cut || draft.is_cut {
        return Err(AllocError);
    }
    Ok(Findings {
        draft,
        rule,
        breach,
        remarks,
    })
}

/// The rule that a document breaks: a value that is missing, or is not what it has to be, comes first.
fn rule_of(draft: &Draft<'_>, rule: Option<TrackError>) -> Option<TrackError> {
    if draft.misfit.is_some() {
        return Some(TrackError::Shape);
    }
    rule
}
