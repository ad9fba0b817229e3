//! Calls as keys of tables.
ghost use Rattle.audit_traffic.specs.calls.CallOrder.{exact_calls};

use crate::calls::call::AuditedCall;
use someip_tables::Key;

/// By Message ID, Request ID, source, destination and Interface Version.
impl Key for AuditedCall {
    ghost exact = { exact_calls };
}
