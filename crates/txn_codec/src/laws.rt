//! Laws of payloads: public functions with no parameters, whose contracts are the laws.

ghost use Rattle.txn_codec.specs.Laws.{AddsInTenBytes, ChangesHaveTheirLength, ChangesMeanOnce, OntologyHasItsLength, OntologyMeansOnce};

/// Bytes are the payload of one list of changes at most. So what is written is read back as the same changes.
pub fn changes_mean_once()
    ensures { ChangesMeanOnce }
{}

/// Bytes are the payload of one ontology at most. So what is written is read back as the same ontology.
pub fn ontology_means_once()
    ensures { OntologyMeansOnce }
{}

/// A payload of changes has as many bytes as `changes_len` tells of them.
pub fn changes_have_their_length()
    ensures { ChangesHaveTheirLength }
{}

/// A payload of an ontology has as many bytes as `ontology_len` tells of it.
pub fn ontology_has_its_length()
    ensures { OntologyHasItsLength }
{}

/// The bytes `00000001 01 02 01 41 01 61` are the payload of one change, which adds A(a).
pub fn adds_in_ten_bytes()
    ensures { AddsInTenBytes }
{}
