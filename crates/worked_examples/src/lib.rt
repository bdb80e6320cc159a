//! What the definitions say of small programs, computed.
#![tactic(auto)]

ghost use Rattle.worked_examples.specs.Computed.{SmallestHalts, OwnWriteIsRead, InitialValueIsRead, UpdateIsLost, NoStepsAreAllowed, MessageIsPassed, ReadsAreSilent, EntriesAreSpent, AddressesWrap, ExchangesAreChained, StoresAreBlind, OtherWriterIsSeen, OtherValueIsSeen, NumbersAreComputed, JumpsAreTaken, NumbersAreTaken};

/// The transcripts of small programs, by the definitions alone.
pub fn computed_transcripts()
    ensures smallest { SmallestHalts }
    ensures own_write { OwnWriteIsRead }
    ensures initial_value { InitialValueIsRead }
    ensures lost_update { UpdateIsLost }
    ensures no_steps { NoStepsAreAllowed }
    ensures message { MessageIsPassed }
    ensures reads { ReadsAreSilent }
    ensures one_entry { EntriesAreSpent }
    ensures addresses { AddressesWrap }
    ensures exchanges { ExchangesAreChained }
    ensures blind_stores { StoresAreBlind }
    ensures other_writer { OtherWriterIsSeen }
    ensures other_value { OtherValueIsSeen }
    ensures arithmetic { NumbersAreComputed }
    ensures jumps { JumpsAreTaken }
    ensures inputs { NumbersAreTaken }
{}

#[cfg(test)]
mod tests;
