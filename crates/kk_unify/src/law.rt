ghost use Rattle.kk_unify.specs.Graphs.{EachJoinIsDecided, EachGraphIsDecided};
ghost use Rattle.kk_unify.specs.Locality.{ObeyingIsLocal};

/// Whether two nodes can be of one type is decided, and so is whether a graph has types. It is a law, and does nothing.
pub fn graphs_are_decided()
    ensures joins { EachJoinIsDecided }
    ensures graphs { EachGraphIsDecided }
{}

/// Whether types obey a graph rests on those of its nodes alone. It is a law, and does nothing.
pub fn obeying_is_local()
    ensures { ObeyingIsLocal }
{}
