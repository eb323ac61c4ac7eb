// A model as it is read: the letters of each state, and which actions lead from each to each.
use successors::SuccessorTable;

// The mask of each state, the successor table, and how many bytes the model file has.
#[derive(Clone, Copy)]
pub struct MarkedModel<'m, 't> {
    pub masks: &'m [u32; 64],
    pub table: SuccessorTable<'t>,
    pub bytes: usize,
}
