//! Operations of a site's own, where what is known of their session then is made already.
ghost use Rattle.std.specs.Prelude.{◌≡◌, ◌<◌, true, Some, None, length, OnOk, OnErr, IfSome};
ghost use Rattle.pcrf_values.specs.Facts.{Fact};
ghost use Rattle.pcrf_values.specs.Held.{kept_list, join_of};
ghost use Rattle.pcrf_values.specs.Sets.{In};
ghost use Rattle.pcrf_model.specs.Holdings.{facts_on, kept_of};
ghost use Rattle.pcrf_model.specs.Operations.{with_operation};
ghost use Rattle.pcrf_model.specs.Sessions.{gx, af};
ghost use Rattle.indexed_state.specs.Alike.{BringsNothing};
ghost use Rattle.indexed_state.specs.Indexed.{IsTold, tells};
ghost use Rattle.indexed_state.specs.Opened.{OpensAlone};

use crate::site::Site;
use af_records::AfRec;
use gx_records::GxRec;
use pcrf_values::{AfSid, GxSid, Rule};
use site_join::Operation;
use std::alloc::AllocError;

impl Site {
    ghost use Rattle.site_machine.specs.Sites.{with_made};

    /// Adds an operation of the site's own on a gateway's session, of which this record is known then, or changes nothing.
    pub(crate) fn add_to_gateway(
        &mut self,
        operation: Operation,
        id: &GxSid,
        known: GxRec,
    ) -> Result<(), AllocError>
        requires later { length self.old.state.log < operation.counter }
        requires session { operation.session ≡ gx id.now }
        requires joins { known ≡ join_of
            (facts_on self.old.state.holding.facts (gx id.now)) (kept_list operation.facts) }
        ensures ok { OnOk result (self.new ≡ with_made self.old (Some operation)) }
        ensures err { OnErr result (self.new ≡ self.old) }
    {
        self.log.try_reserve(1)?;
        self.held.take_gateway(&operation, id, known)?;
        self.log.push(operation).unwrap();
        Ok(())
    }

    /// Adds an operation of the site's own on an application function's session, as `add_to_gateway` does on a gateway's.
    pub(crate) fn add_to_call(
        &mut self,
        operation: Operation,
        id: &AfSid,
        known: AfRec,
    ) -> Result<(), AllocError>
        requires later { length self.old.state.log < operation.counter }
        requires session { operation.session ≡ af id.now }
        requires joins { known ≡ join_of
            (facts_on self.old.state.holding.facts (af id.now)) (kept_list operation.facts) }
        ensures ok { OnOk result (self.new ≡ with_made self.old (Some operation)) }
        ensures err { OnErr result (self.new ≡ self.old) }
    {
        self.log.try_reserve(1)?;
        self.held.take_call(&operation, id, known)?;
        self.log.push(operation).unwrap();
        Ok(())
    }

    /// Adds the operation of a request whose fields are held and of what its gateway is told, with which this record is known of
    /// the session: `None` where it is told nothing. Or changes nothing.
    pub(crate) fn add_told(
        &mut self,
        operation: Operation,
        id: &GxSid,
        known: Option<GxRec>,
    ) -> Result<(), AllocError>
        requires later { length self.old.state.log < operation.counter }
        requires session { operation.session ≡ gx id.now }
        requires nothing { (known ≡ None) → kept_of (with_operation
            self.old.state.holding operation) ≡ self.old.state.holding }
        requires joins { IfSome known (λ k. k ≡ join_of
            (facts_on self.old.state.holding.facts (gx id.now)) (kept_list operation.facts)) }
        requires told { IfSome known (λ k. IsTold self.old.state.holding (gx id.now) k) }
        ensures ok { OnOk result (self.new ≡ with_made self.old (Some operation)) }
        ensures err { OnErr result (self.new ≡ self.old) }
    {
        self.log.try_reserve(1)?;
        if let Some(known) = known {
            self.held.take_told(&operation, id, known)?;
        }
        self.log.push(operation).unwrap();
        Ok(())
    }

    /// Adds an operation of the site's own on a gateway's session that says nothing but what the gateway is told: its facts are
    /// joined in place. Or changes nothing.
    pub(crate) fn add_pushed(&mut self, operation: Operation, id: &GxSid) -> Result<(), AllocError>
        requires later { length self.old.state.log < operation.counter }
        requires session { operation.session ≡ gx id.now }
        requires told { (f : Fact) → In f operation.facts → tells f ≡ true }
        ensures ok { OnOk result (self.new ≡ with_made self.old (Some operation)) }
        ensures err { OnErr result (self.new ≡ self.old) }
    {
        self.log.try_reserve(1)?;
        self.held.take_pushed(&operation, id)?;
        self.log.push(operation).unwrap();
        Ok(())
    }

    /// Adds an operation of the site's own on a gateway's session, where the record that is known of it then brings nothing new:
    /// its facts are joined in place. Or changes nothing.
    pub(crate) fn add_refreshed(
        &mut self,
        operation: Operation,
        id: &GxSid,
    ) -> Result<(), AllocError>
        requires later { length self.old.state.log < operation.counter }
        requires session { operation.session ≡ gx id.now }
        requires nothing { BringsNothing self.old.tables self.old.state.holding (gx id.now) (join_of
            (facts_on self.old.state.holding.facts (gx id.now)) (kept_list operation.facts)) }
        ensures ok { OnOk result (self.new ≡ with_made self.old (Some operation)) }
        ensures err { OnErr result (self.new ≡ self.old) }
    {
        self.log.try_reserve(1)?;
        self.held.take_refreshed(&operation, id)?;
        self.log.push(operation).unwrap();
        Ok(())
    }

    /// Adds an operation of the site's own on a gateway's session as `add_to_gateway` does, where nothing was known of the session,
    /// no call can be bound to it by the record that is known of it then, and its rules are these, which are kept.
    pub(crate) fn add_opened(
        &mut self,
        operation: Operation,
        id: &GxSid,
        known: GxRec,
        rules: Vec<Rule>,
    ) -> Result<(), AllocError>
        requires later { length self.old.state.log < operation.counter }
        requires session { operation.session ≡ gx id.now }
        requires joins { known ≡ join_of
            (facts_on self.old.state.holding.facts (gx id.now)) (kept_list operation.facts) }
        requires alone { OpensAlone
            self.old.tables self.old.state.holding id.now known rules.items }
        ensures ok { OnOk result (self.new ≡ with_made self.old (Some operation)) }
        ensures err { OnErr result (self.new ≡ self.old) }
    {
        self.log.try_reserve(1)?;
        self.held.take_opened(&operation, id, known, rules)?;
        self.log.push(operation).unwrap();
        Ok(())
    }
}
