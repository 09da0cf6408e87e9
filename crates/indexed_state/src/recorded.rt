//! Operations that are taken by the record that is then known of their session.
ghost use Rattle.std.specs.Prelude.{◌≡◌, true, OnOk, OnErr};
ghost use Rattle.pcrf_values.specs.Facts.{Fact};
ghost use Rattle.pcrf_values.specs.Held.{kept_list, join_of};
ghost use Rattle.pcrf_values.specs.Sets.{In};
ghost use Rattle.pcrf_model.specs.Holdings.{facts_on, kept_of};
ghost use Rattle.pcrf_model.specs.Operations.{with_operation};
ghost use Rattle.pcrf_model.specs.Sessions.{gx, af};
ghost use Rattle.indexed_state.specs.Indexed.{IsTold, tells};

use crate::aborting::wait_lost;
use crate::forgetting::{forget_call, forget_gateway, forget_stood};
use crate::indexed::{IndexedState, make_whole};
use crate::reached::{call_reached_in, gateway_reached_in};
use crate::unsettling::{unsettle_both, unsettle_gateway, wait_gateway};
use af_records::AfRec;
use gx_records::GxRec;
use pcrf_values::{AfSid, GxSid};
use rule_delta::aborts::wait_one as wait_call;
use rule_delta::wait_one;
use site_join::Operation;
use std::alloc::AllocError;

impl IndexedState {
    ghost use Rattle.indexed_state.specs.Indexed.{with_holding};

    /// Takes an operation on a gateway's session as `take` does, where the caller has made the record that is known of the
    /// session then: no fact is joined anew.
    pub fn take_gateway(
        &mut self,
        operation: &Operation,
        id: &GxSid,
        known: GxRec,
    ) -> Result<(), AllocError>
        requires session { operation.now.session ≡ gx id.now }
        requires joins { known ≡ join_of
            (facts_on self.old.holding.facts (gx id.now)) (kept_list operation.now.facts) }
        ensures ok { OnOk result (self.new ≡ with_holding self.old
            (kept_of (with_operation self.old.holding operation.now))) }
        ensures err { OnErr result (self.new ≡ self.old) }
    {
        make_whole(&self.state, &mut self.index, &mut self.is_whole)?;
        self.index.cover(operation)?;
        self.state.note_kept();
        self.state.note_form();
        operation.note_form();
        let after = gateway_reached_in(Some(&known));
        let clock = self.state.clock().max(operation.counter());
        let stood = self.state.put_gx(id, Some(known), clock)?;
        let before = gateway_reached_in(stood.as_ref());
        wait_gateway(&self.state, &mut self.waiting, id, after.address);
        unsettle_gateway(
            self.alloc,
            &self.state,
            &self.index,
            &mut self.rules,
            &mut self.waiting,
            &before,
            &after,
        );
        wait_lost(
            self.alloc,
            &self.state,
            &self.index,
            &mut self.aborts,
            &before,
        );
        forget_gateway(&mut self.index, id, &before, &after);
        forget_stood(&mut self.index, id, stood.as_ref(), self.state.gx(id));
        Ok(())
    }

    /// Takes an operation on a gateway's session as `take_gateway` does, where all that is new is what the gateway is told. No
    /// list of rules is stale then, and no other session has to wait.
    pub fn take_told(
        &mut self,
        operation: &Operation,
        id: &GxSid,
        known: GxRec,
    ) -> Result<(), AllocError>
        requires session { operation.now.session ≡ gx id.now }
        requires joins { known ≡ join_of
            (facts_on self.old.holding.facts (gx id.now)) (kept_list operation.now.facts) }
        requires told { IsTold self.old.holding (gx id.now) known }
        ensures ok { OnOk result (self.new ≡ with_holding self.old
            (kept_of (with_operation self.old.holding operation.now))) }
        ensures err { OnErr result (self.new ≡ self.old) }
    {
        self.state.note_kept();
        self.state.note_form();
        operation.note_form();
        let clock = self.state.clock().max(operation.counter());
        self.state.put_gx(id, Some(known), clock)?;
        wait_one(&self.state, &mut self.waiting, id);
        Ok(())
    }

    /// Takes an operation on a gateway's session as `take` does, where it says nothing but what the gateway is told: its facts are
    /// joined in place. No list of rules is stale then, and no other session has to wait.
    pub fn take_pushed(&mut self, operation: &Operation, id: &GxSid) -> Result<(), AllocError>
        requires session { operation.now.session ≡ gx id.now }
        requires told { (f : Fact) → In f operation.now.facts → tells f ≡ true }
        ensures ok { OnOk result (self.new ≡ with_holding self.old
            (kept_of (with_operation self.old.holding operation.now))) }
        ensures err { OnErr result (self.new ≡ self.old) }
    {
        self.state.note_kept();
        self.state.take(operation)?;
        wait_one(&self.state, &mut self.waiting, id);
        Ok(())
    }

    /// Takes an operation on an application function's session, as `take_gateway` does on a gateway's.
    pub fn take_call(
        &mut self,
        operation: &Operation,
        id: &AfSid,
        known: AfRec,
    ) -> Result<(), AllocError>
        requires session { operation.now.session ≡ af id.now }
        requires joins { known ≡ join_of
            (facts_on self.old.holding.facts (af id.now)) (kept_list operation.now.facts) }
        ensures ok { OnOk result (self.new ≡ with_holding self.old
            (kept_of (with_operation self.old.holding operation.now))) }
        ensures err { OnErr result (self.new ≡ self.old) }
    {
        make_whole(&self.state, &mut self.index, &mut self.is_whole)?;
        self.index.cover(operation)?;
        self.state.note_kept();
        self.state.note_form();
        operation.note_form();
        let after = call_reached_in(Some(&known));
        let clock = self.state.clock().max(operation.counter());
        let stood = self.state.put_af(id, Some(known), clock)?;
        let before = call_reached_in(stood.as_ref());
        unsettle_both(
            &self.state,
            &self.index,
            &mut self.rules,
            &mut self.waiting,
            &before,
            &after,
        );
        wait_call(&self.state, &mut self.aborts, id);
        forget_call(&mut self.index, id, &before, &after);
        Ok(())
    }
}
