// Laws of the definitions, and what they say of small texts.
ghost use Rattle.assembler.specs.Laws.{CanonicalIsRead, ReadProgramsAreSound, FaultsAreOfLines};
ghost use Rattle.assembler.specs.Examples.{MessageIsRead, MessageIsListed, OperationsAreRead, OperationsAreListed, ValuesAreRead, BytesAreTested, MnemonicsAreTested, OperandsAreTested, NumbersAreTested, LabelsAreTested, LabelsAreOnce, TargetsAreTested, ThreadsAreCounted, ThreadsAreWanted, OrderIsKept, PlacesAreCounted, NoThreadIsFound, ThreadsAreApart};

/// The canonical text of a program says this program; what a text says keeps the rules of programs, and its numbers
/// fit an image; and a refused text is at fault in one of its lines, or in the line after them.
pub fn text_laws()
    ensures canonical { CanonicalIsRead }
    ensures sound { ReadProgramsAreSound }
    ensures faults { FaultsAreOfLines }
{}

/// Small texts, computed from the definitions alone.
pub fn computed_texts()
    ensures message { MessageIsRead }
    ensures listed { MessageIsListed }
    ensures operations_read { OperationsAreRead }
    ensures operations_listed { OperationsAreListed }
    ensures values { ValuesAreRead }
    ensures bytes { BytesAreTested }
    ensures mnemonics { MnemonicsAreTested }
    ensures operands { OperandsAreTested }
    ensures numbers { NumbersAreTested }
    ensures labels { LabelsAreTested }
    ensures labels_once { LabelsAreOnce }
    ensures targets { TargetsAreTested }
    ensures threads_counted { ThreadsAreCounted }
    ensures threads_wanted { ThreadsAreWanted }
    ensures order { OrderIsKept }
    ensures places { PlacesAreCounted }
    ensures no_thread { NoThreadIsFound }
    ensures apart { ThreadsAreApart }
{}
