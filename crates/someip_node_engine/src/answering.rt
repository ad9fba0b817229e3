//! The answers of the application to requests.
ghost use Rattle.std.specs.Prelude.{◌≡◌, ◌≤◌, ◌∷◌, [], length, IfOk, IfErr, OnOk, OnErr, None};
ghost use Rattle.someip_wire.specs.View.{view};
ghost use Rattle.someip_node_rules.specs.rules.Answering.{answering_refusal, answers};
ghost use Rattle.someip_node_engine.specs.Handled.{Handled, or_no_memory};
ghost use Rattle.someip_node_rules.specs.rules.Inputs as input;
ghost use Rattle.someip_node_rules.specs.histories.Items as item;
ghost use Rattle.someip_node_rules.specs.histories.Items.{changed};
ghost use Rattle.someip_node_rules.specs.forms.Outputs.{Sends};
ghost use Rattle.someip_node_rules.specs.forms.GoodConfigs.{greatest_message_limit};

use crate::engine::Engine;
use crate::message_sending::send;
use crate::outputs::Giving;
use someip_node_rules::NodeError;
use someip_rpc::{Outgoing, Reply};
use someip_tp::Reassembly;

impl<R: Reassembly> Engine<R> {
    /// Answers the request that waits under a token.
    pub fn answer(
        &mut self,
        token: u64,
        reply: Reply,
        payload: &[u8],
        giving: &mut Giving,
    ) -> Result<(), NodeError>
        ensures handled { Handled (input.Answer token reply payload.now)
            self.old giving.old result self.new giving.new }
        ensures config { self.new.config ≡ self.old.config }
    {
        let sent = self.close(token, reply, payload)?;
        send(
            self.alloc,
            sent.from,
            sent.to,
            &sent.message,
            &mut giving.outputs,
        )?;
        Ok(())
    }

    /// Lets the request that waits under a token wait no longer, and says what is sent.
    fn close<'a>(
        &mut self,
        token: u64,
        reply: Reply,
        payload: &'a [u8],
    ) -> Result<Outgoing<'a>, NodeError>
        ensures accepted { OnOk result (answering_refusal token reply payload.now self.old ≡ None) }
        ensures sent { IfOk result (λ sent. answers token reply payload.now self.old ≡ record {
          items = item.Answered token ∷ [];
          given = Sends sent.from sent.to (view sent.message) ∷ [];
          replies = [];
        }) }
        ensures short { IfOk result (λ sent. length sent.message.payload.now ≤ greatest_message_limit) }
        ensures closed { OnOk result (self.new ≡ changed self.old (item.Answered token)) }
        ensures refused { IfErr result (λ error. error
            ≡ or_no_memory (answering_refusal token reply payload.now self.old)) }
        ensures unchanged { OnErr result (self.new ≡ self.old) }
        ensures config { self.new.config ≡ self.old.config }
    {
        let limit = self.config.common.message_limit;
        let sent = self.server.answer(token, reply, payload, limit)?;
        Ok(sent)
    }
}
