// What the definitions imply, as contracts of functions that do nothing.
ghost use Rattle.std.specs.Prelude.{◌≡◌, List};
ghost use Rattle.kb_term.specs.Signature.{IsSignature, Signature};
ghost use Rattle.kb_overlap.specs.Trace.{TraceStep};
ghost use Rattle.kb_trace.specs.TraceText.{IsTraceForm, trace_text};

/// A text is that of one trace over a signature at most.
pub fn texts_are_of_one_trace()
    ensures { (signature : Signature) (t u : List TraceStep) → IsSignature signature → IsTraceForm signature t → IsTraceForm signature u → trace_text signature t ≡ trace_text signature u → t ≡ u }
{}
