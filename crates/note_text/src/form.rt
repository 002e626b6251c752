// In which form notes are put: as lines of the report, or as octets for a host.
#[derive(Clone, Copy)]
pub enum Form {
    Line,
    Octets,
}
