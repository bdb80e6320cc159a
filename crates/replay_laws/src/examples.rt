//! Worked examples, each computed: small programs as scripts, what their histories log, and which orders respect the logs.
//! They also show that the premises of the laws can be met.
ghost use Rattle.replay_laws.specs.Scripts.{ScriptsMeetThePremises};
ghost use Rattle.replay_laws.specs.Examples.{LostUpdate, LostUpdateRefused, LostUpdateRounds, LostUpdateBridge};
ghost use Rattle.replay_laws.specs.Examples.{MessagePassing, MessagePassingSooner, MessagePassingElsewise, MessagePassingBetween, MessagePassingTooEarly};
ghost use Rattle.replay_laws.specs.Examples.{RoundAnotherRead, RoundAnotherReadRefused, ExchangeChain, ExchangeChainRefused};
ghost use Rattle.replay_laws.specs.Examples.{BlindStores, BlindStoresRefused, BlindStoresNoEvent, SameValueOtherWriter, SameValueOtherWriterRefused};
ghost use Rattle.replay_laws.specs.Examples.{ForcedBetween, NoFit, OneEntry};

/// Threads that run scripts meet the premises of all laws.
pub fn script_threads()
    ensures { ScriptsMeetThePremises }
{}

/// Two threads add one to a word, and one addition is lost.
pub fn lost_update()
    ensures shows { LostUpdate }
    ensures refused { LostUpdateRefused }
    ensures rounds { LostUpdateRounds }
    ensures bridge { LostUpdateBridge }
{}

/// One thread writes a value and then a flag; the other waits for the flag and reads the value.
pub fn message_passing()
    ensures shows { MessagePassing }
    ensures sooner { MessagePassingSooner }
    ensures elsewise { MessagePassingElsewise }
    ensures between { MessagePassingBetween }
    ensures too_early { MessagePassingTooEarly }
{}

/// Two reads of one word are one entry, also round a read of another word.
pub fn round_another_read()
    ensures shows { RoundAnotherRead }
    ensures refused { RoundAnotherReadRefused }
{}

/// Three threads exchange one word in turn.
pub fn exchange_chain()
    ensures shows { ExchangeChain }
    ensures refused { ExchangeChainRefused }
{}

/// A store that nobody sees is no event, and a replay leaves it out.
pub fn blind_stores()
    ensures shows { BlindStores }
    ensures refused { BlindStoresRefused }
    ensures no_event { BlindStoresNoEvent }
{}

/// A conditional write fails where the word was written again, also with the same value.
pub fn same_value_other_writer()
    ensures shows { SameValueOtherWriter }
    ensures refused { SameValueOtherWriterRefused }
{}

/// Logs of no history: one that a skip play has all the same, and one that it has not.
pub fn made_logs()
    ensures forced { ForcedBetween }
    ensures no_fit { NoFit }
{}

/// A thread ends before the read for which its log has no room.
pub fn one_entry()
    ensures { OneEntry }
{}
