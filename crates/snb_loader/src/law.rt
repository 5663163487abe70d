//! Laws of what a folder is refused for and of what is read of it, over every folder.

ghost use Rattle.snb_loader.specs.Laws.{DatasetIsOne, DatasetRefusesOnce, LanesAreOne, LanesRefuseOnce, ParamsAreOne, ParamsRefuseOnce};

use crate::params::{ParamFileSink, params_are_lawful};
use crate::streams::{StreamFileSink, streams_are_lawful};
use crate::tables::{TableGraph, tables_are_lawful};
use snb_csv::TableLines;
use snb_graph_model::graphs_are_their_rows;
use snb_input_files::{one_refusal, one_saying};
use snb_streams::{QueryLines, StreamLines};

/// Something is wrong with the tables of a folder in one first way, or nothing is, and they have one
/// graph.
pub fn one_dataset()
    ensures one { DatasetIsOne }
    ensures refusal { DatasetRefusesOnce }
{
    tables_are_lawful();
    one_refusal::<TableLines, TableGraph>();
    one_saying::<TableLines, TableGraph>();
    graphs_are_their_rows();
}

/// Something is wrong with the update streams of a folder in one first way, or nothing is, and they
/// have the same lanes.
pub fn one_lanes()
    ensures one { LanesAreOne }
    ensures refusal { LanesRefuseOnce }
{
    streams_are_lawful();
    one_refusal::<StreamLines, StreamFileSink>();
    one_saying::<StreamLines, StreamFileSink>();
}

/// Something is wrong with the parameter files of a folder in one first way, or nothing is, and they
/// have the same lists.
pub fn one_params()
    ensures one { ParamsAreOne }
    ensures refusal { ParamsRefuseOnce }
{
    params_are_lawful();
    one_refusal::<QueryLines, ParamFileSink>();
    one_saying::<QueryLines, ParamFileSink>();
}
