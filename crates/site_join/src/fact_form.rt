//! The facts of both kinds of sessions, as the form of operations asks for them.
ghost use Rattle.std.specs.Prelude.{◌≡◌, true};
ghost use Rattle.pcrf_model.specs.Forms.{fits_rule_name};
ghost use Rattle.gx_records.specs.GxFacts.{told_value};

use crate::form::FormFact;
use crate::ranges::{note_af_value, note_component_value, note_flow_value, note_gx_value};
use crate::tag_form::TagForm;
use af_records::AfFact;
use gx_records::GxFact;
use pcrf_model::ranges::{note_rule, note_text};
use pcrf_values::{Rule, RuleName};

/// What was told under a name is nothing, or a rule of that name.
fn is_told(name: &RuleName, rule: &Option<Rule>) -> bool
    ensures { result ≡ fits_rule_name name.now (told_value rule.now) }
{
    match rule {
        None => true,
        Some(rule) => {
            note_rule(rule);
            rule.name().cmp(name).is_eq()
        }
    }
}

impl FormFact for GxFact {
    ghost use Rattle.pcrf_model.specs.Sessions.{Gx};

    ghost kind = { Gx };

    fn has_form(&self, form: TagForm) -> bool {
        match self {
            GxFact::End => true,
            GxFact::Field(tag, value) => {
                note_gx_value(value);
                form.admits(tag, form.number(tag))
            }
            GxFact::Told(tag, name, rule) => {
                note_text(name);
                is_told(name, rule) && form.admits(tag, 0)
            }
        }
    }
}

impl FormFact for AfFact {
    ghost use Rattle.pcrf_model.specs.Sessions.{Af};

    ghost kind = { Af };

    fn has_form(&self, form: TagForm) -> bool {
        match self {
            AfFact::End | AfFact::Aborted => true,
            AfFact::ComponentRemoved(component) => {
                let _component = *component;
                true
            }
            AfFact::FlowRemoved(component, flow) => {
                let (_component, _flow) = (*component, *flow);
                true
            }
            AfFact::Session(tag, value) => {
                note_af_value(value);
                form.admits(tag, 0)
            }
            AfFact::Component(component, tag, value) => {
                note_component_value(*component, value);
                form.admits(tag, 0)
            }
            AfFact::Flow(component, flow, tag, value) => {
                note_flow_value(*component, *flow, value);
                form.admits(tag, 0)
            }
        }
    }
}
