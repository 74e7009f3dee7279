//! What holds of all records of ports. The function does nothing: its clause is the law.
ghost use Rattle.port_rules.specs.Records.{RecordsCostFew};

/// The record of a port costs at most 50,000 units.
pub fn records_cost_few()
    ensures { RecordsCostFew }
{}
