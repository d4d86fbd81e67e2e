//! Tests of the object table, the forest of corners and the list of points.
#![tactic(auto)]

#[cfg(test)]
mod batches;
#[cfg(test)]
mod entering;
#[cfg(test)]
mod forest;
#[cfg(test)]
mod point_list;
#[cfg(test)]
mod random_boxes;
#[cfg(test)]
mod table;
#[cfg(test)]
mod upgrade;
