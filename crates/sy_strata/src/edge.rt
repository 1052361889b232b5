/// A node needs another one, or itself. Nodes are numbered from 0.
#[derive(Clone, Copy, Debug, PartialEq, Eq)]
pub struct Edge {
    pub node: u32,
    pub needs: u32,
}
