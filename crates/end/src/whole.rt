ghost use Rattle.std.specs.Prelude.{◌≡◌, OnOk};
ghost use Rattle.end.specs.Rules.{end_keeps, judged, works};
ghost use Rattle.end.specs.Ready.{IsReady};

use crate::{Params, Receiver, Transmitter};
use pdu::Refusal;

/// One end of a connection, with the memory that is lent to it.
#[derive(Drop)]
pub struct End<'a> {
    pub params: Params,
    /// 1 while the connection runs, and 0 when it has stopped.
    pub running: u32,
    pub vt: Transmitter<'a>,
    pub vr: Receiver<'a>,
}

impl End<'_> {
    /// Parameters, state and lent memory keep the rules: if not, the answer is 17.
    pub fn keeps_rules(&self) -> bool
        ensures { result ≡ end_keeps self.now }
    {
        self.params.keep_rules()
            && self.vt.has_room(self.params)
            && self.vr.has_room(self.params)
            && self.running <= 1
            && self.vt.keeps_rules(self.params)
            && self.vr.keeps_rules(self.params)
    }

    /// What refuses every call but opening first: 17.
    #[tactic(auto, using(crate::proofs::Readiness::ready))]
    pub fn judged(&self) -> Result<(), Refusal>
        ensures answer { result ≡ judged self.now }
        ensures ready { OnOk result (IsReady self.now) }
    {
        if self.keeps_rules() {
            Ok(())
        } else {
            Err(Refusal::Rules)
        }
    }

    /// What refuses every call but opening and taking first: 17, 15.
    pub fn works(&self) -> Result<(), Refusal>
        ensures answer { result ≡ works self.now }
        ensures ready { OnOk result (IsReady self.now) }
    {
        self.judged()?;
        if self.running == 0 {
            return Err(Refusal::Stopped);
        }
        Ok(())
    }
}
