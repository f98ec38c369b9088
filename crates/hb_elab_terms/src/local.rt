//! The names around a raw term.
use hb_base::NameId;
use hb_tables::Carrier;
use hb_term::Term;
use hb_world::Section;
use std::alloc::{AllocError, Global};

/// Bound names with their types, the outermost first, each under those before it, and the local carrier.
/// In a section they begin with its context.
#[derive(Drop)]
pub struct Local<'a> {
    pub scopes: Vec<(Option<NameId>, Term)>,
    pub carrier: Option<&'a Carrier>,
}

impl<'a> Local<'a> {
    /// The names of the section's context, the carrier and the factory's value, with the section's carrier.
    /// Without a section there are none.
    pub fn new(alloc: Global, section: Option<&'a Section>) -> Result<Local<'a>, AllocError> {
        let mut scopes = Vec::new(alloc);
        let Some(section) = section else {
            return Ok(Local {
                scopes,
                carrier: None,
            });
        };
        for ty in &section.context {
            let name = context_name(section, scopes.len());
            scopes.push((name, ty.copy()?))?;
        }
        Ok(Local {
            scopes,
            carrier: Some(&section.own),
        })
    }
}

/// The name of the variable at the place in the section's context: the first is the carrier, the last the
/// factory's value.
fn context_name(section: &Section, at: usize) -> Option<NameId> {
    if at == 0 {
        Some(section.carrier)
    } else if at == section.context.len().saturating_sub(1) {
        section.var
    } else {
        None
    }
}
