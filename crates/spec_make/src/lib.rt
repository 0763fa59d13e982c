//! What a new file is: the bytes of each of its pages, by the page's role (Pages and Extents Architecture Guide; the
//! exact bytes are this project's own). All of it stands in `specs/`.
#![tactic(auto)]
